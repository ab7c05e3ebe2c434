// An amount; and nineteen of them in a row, by bucket, checked where they stand in the body.
ghost use Rattle.std.specs.Prelude.{◌≡◌, ◌+◌, ◌≤◌, length};
ghost use Rattle.paper.specs.Refusals.{result_of};
ghost use Rattle.paper.specs.Ladder.{buckets};
ghost use Rattle.paper.specs.Fields.{amount_at, each};
ghost use Rattle.fields.specs.Answers.{thousands, total};

use crate::bytes::money_at;
use crate::field;
use paper::{BUCKETS, Fault, Refusal};
use scales::Thousands;

pub fn amount_at(body: &[u8], at: usize) -> Result<Thousands, Fault>
    requires { at + 4 ≤ length body.now }
    ensures { result ≡ result_of thousands (amount_at body.now at) }
{
    let amount = money_at(body, at);
    field(amount, amount.0 <= 1000000000, Refusal::TooLarge, at)
}

// Their sum, or the first that is above its limit.
pub fn amounts_at(body: &[u8], from: usize) -> Result<Thousands, Fault>
    requires { from + 76 ≤ length body.now }
    ensures { result ≡ result_of total (each (amount_at body.now) buckets from) }
{
    let mut sum = Thousands(0);
    for k in 0..BUCKETS {
        let amount = amount_at(body, from + 4 * k)?;
        sum.0 += amount.0;
    }
    Ok(sum)
}
