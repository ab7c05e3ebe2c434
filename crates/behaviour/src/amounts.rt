// Nineteen amounts in a row, by bucket, read where they stand in the body; and the sum of nineteen.
ghost use Rattle.std.specs.Prelude.{◌+◌, ◌<◌, ◌≤◌, ◌≡◌, length, get_or};
ghost use Rattle.laws.specs.Sums.{sum_of};
ghost use Rattle.paper.specs.Scales.{billion};
ghost use Rattle.paper.specs.Ladder.{buckets};
ghost use Rattle.fields.specs.Answers.{amounts_from};
ghost use Rattle.posting.specs.Parts.{AtMost, trillion};

use fields::bytes::money_at;
use paper::BUCKETS;
use scales::Thousands;

// The amount of bucket k + 1.
pub fn amount_of(body: &[u8], from: usize, k: usize) -> Thousands
    requires from_in_bounds { (from + 76 ≤ length body.now) × (k < buckets) }
    requires at_most { AtMost billion (amounts_from body.now from) }
    ensures { (result.0 ≡ get_or (amounts_from body.now from) k 0) × (result.0 ≤ billion) }
{
    money_at(body, from + 4 * k)
}

pub fn sum_from(body: &[u8], from: usize) -> Thousands
    requires from_in_bounds { from + 76 ≤ length body.now }
    requires at_most { AtMost billion (amounts_from body.now from) }
    ensures { (result.0 ≡ sum_of (amounts_from body.now from)) × (result.0 ≤ 19_000_000_000) }
{
    let mut total = Thousands(0);
    for k in 0..BUCKETS {
        total.0 += amount_of(body, from, k).0;
    }
    total
}

// Of nineteen numbers that are set down already: to read them from the body once more would take longer.
pub fn row_sum(row: &[u64]) -> Thousands
    requires { (length row.now ≡ buckets) × AtMost trillion row.now }
    ensures { result.0 ≡ sum_of row.now }
{
    Thousands(row.iter().sum())
}
