// Kind 4, a non-maturity deposit: currency, category (1), total, 19 core amounts. The core is checked where it stands; the answer holds the
// fields before it.
ghost use Rattle.std.specs.Prelude.{◌≡◌};
ghost use Rattle.paper.specs.Refusals.{checked_as};
ghost use Rattle.paper.specs.Records.{flows, currencies};
ghost use Rattle.paper.specs.Decode.{decode_deposit};
ghost use Rattle.record.specs.Answers.{deposit_of};

use crate::body::Body;
use fields::amounts::{amount_at, amounts_at};
use fields::{category_at, record_fault};
use paper::{Fault, Refusal};
use rules::deposit::{above_cap, too_long, weighed_core};
use scales::Thousands;

#[derive(Clone, Copy)]
pub struct Deposit {
    pub currency: u32,
    pub category: u32,
    pub total: Thousands,
}

pub fn decode_deposit(body: Body<'_, 82>) -> Result<Deposit, Fault>
    ensures { checked_as (λ s. flows s.currency (deposit_of body.entry.bytes.now s)) result ≡ decode_deposit currencies body.entry.bytes.now }
{
    let category = category_at(body.bytes, 1)?;
    let total = amount_at(body.bytes, 2)?;
    let core = amounts_at(body.bytes, 6)?;
    if above_cap(category, total, core) {
        return Err(record_fault(Refusal::CoreAboveCap));
    }
    if too_long(category, core, weighed_core(body.bytes)) {
        return Err(record_fault(Refusal::CoreTooLong));
    }
    Ok(Deposit {
        currency: body.currency,
        category,
        total,
    })
}
