// Kind 6, a term deposit: currency, share, 19 amounts. They are checked where they stand; the answer holds the fields before them.
ghost use Rattle.std.specs.Prelude.{◌≡◌};
ghost use Rattle.paper.specs.Refusals.{checked_as};
ghost use Rattle.paper.specs.Records.{flows, currencies};
ghost use Rattle.paper.specs.Decode.{decode_term_deposit};
ghost use Rattle.record.specs.Answers.{term_deposit_of};

use crate::body::Body;
use fields::amounts::amounts_at;
use fields::share_at;
use paper::Fault;

#[derive(Clone, Copy)]
pub struct TermDeposit {
    pub currency: u32,
    pub share: u32,
}

pub fn decode_term_deposit(body: Body<'_, 79>) -> Result<TermDeposit, Fault>
    ensures { checked_as (λ s. flows s.currency (term_deposit_of body.entry.bytes.now s)) result ≡ decode_term_deposit currencies body.entry.bytes.now }
{
    let share = share_at(body.bytes, 1)?;
    amounts_at(body.bytes, 3)?;
    Ok(TermDeposit {
        currency: body.currency,
        share,
    })
}
