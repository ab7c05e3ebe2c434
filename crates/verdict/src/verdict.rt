// The verdict against Tier 1 capital.
ghost use Rattle.std.specs.Prelude.{◌≡◌, ◌≤◌};
ghost use Rattle.paper.specs.Verdict.{verdict};
ghost use Rattle.verdict.specs.Figures.{most_of_a_sum};

use paper::Verdict;
use scales::Thousands;

// Over if 100(measure - tolerance) > 15 T, within if 100(measure + tolerance) <= 15 T: the difference may be below zero.
pub fn verdict_of(measure: Thousands, tolerance: Thousands, tier1: Thousands) -> Verdict
    requires { (measure.0 ≤ most_of_a_sum) × (tolerance.0 ≤ most_of_a_sum) × (tier1.0 ≤ 1_000_000_000_000) }
    ensures { result ≡ verdict measure.0 tolerance.0 tier1.0 }
{
    let limit = 15 * (tier1.0 as i64);
    let low = 100 * (measure.0 as i64 - tolerance.0 as i64);
    let high = 100 * (measure.0 as i64 + tolerance.0 as i64);
    if low > limit {
        return Verdict::Over;
    }
    if high <= limit {
        return Verdict::Within;
    }
    Verdict::Close
}
