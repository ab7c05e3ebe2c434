// Kind 5, a prepayable loan: currency, share, 19 scheduled principals, 19 scheduled interests. The amounts are checked where they stand; the
// answer holds the fields before them.
ghost use Rattle.std.specs.Prelude.{◌≡◌};
ghost use Rattle.paper.specs.Refusals.{checked_as};
ghost use Rattle.paper.specs.Records.{flows, currencies};
ghost use Rattle.paper.specs.Decode.{decode_loan};
ghost use Rattle.record.specs.Answers.{loan_of};

use crate::body::Body;
use fields::amounts::amounts_at;
use fields::{record_fault, share_at};
use paper::{Fault, Refusal};
use rules::loan::interest_alone;

#[derive(Clone, Copy)]
pub struct Loan {
    pub currency: u32,
    pub share: u32,
}

pub fn decode_loan(body: Body<'_, 155>) -> Result<Loan, Fault>
    ensures { checked_as (λ s. flows s.currency (loan_of body.entry.bytes.now s)) result ≡ decode_loan currencies body.entry.bytes.now }
{
    let share = share_at(body.bytes, 1)?;
    let principal = amounts_at(body.bytes, 3)?;
    let interest = amounts_at(body.bytes, 79)?;
    if let Some(bare) = interest_alone(body.bytes, principal) {
        return Err(Fault {
            cause: Refusal::InterestAlone,
            place: 80 + 4 * bare,
        });
    }
    if 1000000000 < principal.0 + interest.0 {
        return Err(record_fault(Refusal::OverLimit));
    }
    Ok(Loan {
        currency: body.currency,
        share,
    })
}
