// Kind 1, a single flow: currency, side, months (2), days (1), amount.
ghost use Rattle.std.specs.Prelude.{◌≡◌};
ghost use Rattle.paper.specs.Refusals.{checked_as};
ghost use Rattle.paper.specs.Records.{flows, currencies};
ghost use Rattle.paper.specs.Decode.{decode_single};
ghost use Rattle.record.specs.Answers.{single_of};

use crate::body::Body;
use fields::amounts::amount_at;
use fields::{days_at, months_at, side_at};
use paper::Fault;
use scales::Thousands;

#[derive(Clone, Copy)]
pub struct Single {
    pub currency: u32,
    pub side: u32,
    pub months: u32,
    pub days: u32,
    pub amount: Thousands,
}

pub fn decode_single(body: Body<'_, 9>) -> Result<Single, Fault>
    ensures { checked_as (λ s. flows s.currency (single_of s)) result ≡ decode_single currencies body.entry.bytes.now }
{
    let side = side_at(body.bytes, 1)?;
    let months = months_at(body.bytes, 2)?;
    let days = days_at(body.bytes, 4)?;
    let amount = amount_at(body.bytes, 5)?;
    Ok(Single {
        currency: body.currency,
        side,
        months,
        days,
        amount,
    })
}
