// Kind 4, a liability: each core amount in its bucket, and total less core in bucket 1; the same in every scenario.
ghost use Rattle.std.specs.Prelude.{◌≤◌, ◌≡◌, length};
ghost use Rattle.laws.specs.Sums.{sum_of};
ghost use Rattle.laws.specs.Lists.{tabulate};
ghost use Rattle.paper.specs.Scales.{billion};
ghost use Rattle.paper.specs.Ladder.{buckets};
ghost use Rattle.paper.specs.Behaviour.{deposit_flow};
ghost use Rattle.fields.specs.Answers.{amounts_from};
ghost use Rattle.posting.specs.Parts.{AtMost};

use crate::amounts::{amount_of, row_sum};
use paper::BUCKETS;
use scales::Thousands;

pub fn core_row(body: &[u8], total: Thousands) -> [u64; BUCKETS]
    requires body_len { (length body.now ≡ 82) × (total.0 ≤ billion) }
    requires at_most { AtMost billion (amounts_from body.now 6) × (sum_of (amounts_from body.now 6) ≤ total.0) }
    ensures { result ≡ tabulate (deposit_flow total.0 (amounts_from body.now 6)) buckets }
{
    let mut row = [0u64; BUCKETS];
    for (k, cell) in row.iter_mut().enumerate() {
        *cell = amount_of(body, 6, k).0;
    }
    let core = row_sum(&row);
    row[0] += total.0 - core.0;
    row
}
