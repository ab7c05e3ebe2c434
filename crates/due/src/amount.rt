// One amount due at a term, the same in every scenario.
ghost use Rattle.std.specs.Prelude.{◌%◌, ◌≤◌};
ghost use Rattle.paper.specs.Ladder.{buckets};
ghost use Rattle.paper.specs.Flow.{due};
ghost use Rattle.posting.specs.Parts.{FlowParts, Enters};

use ladder::bucket_of;
use paper::{Fault, SCENARIOS};
use posting::cells::{post, sided_amount};
use posting::room::admit;
use scales::Thousands;

pub fn slot_due(
    side: u32,
    months: u32,
    days: u32,
    amount: Thousands,
    section: &mut [i64],
    sizes: &mut [u64],
) -> Result<(), Fault>
    requires amount_bound { amount.0 ≤ 2_000_000_000 }
    requires flow_parts { FlowParts section.old sizes.old }
    ensures { Enters (λ j. due (record { months = months; days = days }) amount.0 (j % buckets)) side (λ i. amount.0) section sizes result }
{
    admit(sizes, &[amount.0; SCENARIOS])?;
    post(section, bucket_of(months, days), sided_amount(side, amount));
    Ok(())
}
