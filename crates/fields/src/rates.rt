// A rate; and the nineteen of a curve, by bucket: each is checked, and set down in the room that is lent.
ghost use Rattle.std.specs.Prelude.{◌≡◌, ◌+◌, ◌≤◌, length};
ghost use Rattle.paper.specs.Refusals.{result_of};
ghost use Rattle.paper.specs.Ladder.{buckets};
ghost use Rattle.paper.specs.Fields.{rate_at, each};
ghost use Rattle.fields.specs.Answers.{millionths, no_value, rates_set};

use crate::bytes::signed_at;
use crate::field;
use paper::{BUCKETS, Fault, Refusal};
use scales::Millionths;

pub fn rate_at(body: &[u8], at: usize) -> Result<Millionths, Fault>
    requires { at + 4 ≤ length body.now }
    ensures { result ≡ result_of millionths (rate_at body.now at) }
{
    let rate = Millionths(signed_at(body, at));
    field(
        rate,
        (-50000..=300000).contains(&rate.0),
        Refusal::OutOfRange,
        at,
    )
}

// All are in range, or the first that is not.
pub fn rates_at(body: &[u8], from: usize, rates: &mut [i64; BUCKETS]) -> Result<(), Fault>
    requires from_in_bounds { from + 76 ≤ length body.now }
    ensures value { result ≡ result_of no_value (each (rate_at body.now) buckets from) }
    ensures rates_after { rates.new ≡ rates_set body.now from rates.old }
{
    for (k, millionths) in rates.iter_mut().enumerate() {
        *millionths = rate_at(body, from + 4 * k)?.0;
    }
    Ok(())
}
