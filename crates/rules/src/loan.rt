// Kind 5, a prepayable loan: no interest stands where no principal is scheduled (11).
ghost use Rattle.std.specs.Prelude.{◌&&◌, ◌≡◌, length};
ghost use Rattle.std.specs.Bool.{then_some};
ghost use Rattle.laws.specs.Tests.{◌is◌, ◌below◌, first};
ghost use Rattle.laws.specs.Sums.{sum_of};
ghost use Rattle.paper.specs.Ladder.{buckets};
ghost use Rattle.paper.specs.TurnedDown.{interest_alone};
ghost use Rattle.fields.specs.Answers.{amounts_from};

use fields::bytes::money_at;
use paper::BUCKETS;
use scales::Thousands;

// What is scheduled comes first: as a rule something is, and the interest need not be looked at.
fn alone(interest: Thousands, scheduled: Thousands) -> bool
    ensures { result ≡ (0 below interest.0 && scheduled.0 is 0) }
{
    scheduled.0 == 0 && 0 < interest.0
}

// 11: the first bucket, counted from 0, with interest and no scheduled principal in it or after.
pub fn interest_alone(body: &[u8], principal: Thousands) -> Option<usize>
    requires body_len { length body.now ≡ 155 }
    requires principal_value { principal.0 ≡ sum_of (amounts_from body.now 3) }
    ensures { let bucket = first (interest_alone (amounts_from body.now 3) (amounts_from body.now 79)) 0 buckets in result ≡ then_some (bucket below buckets) bucket }
{
    let mut scheduled = principal;
    for k in 0..BUCKETS {
        let interest = money_at(body, 79 + 4 * k);
        if alone(interest, scheduled) {
            return Some(k);
        }
        scheduled.0 -= money_at(body, 3 + 4 * k).0;
    }
    None
}
