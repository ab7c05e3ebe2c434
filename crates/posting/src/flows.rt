// A record's own flows, worked out beforehand in rows of nineteen, and 14 before any of them is written.
ghost use Rattle.std.specs.Prelude.{ℕ, ◌%◌, ◌<◌, ◌≤◌, ◌≡◌, length, get_or};
ghost use Rattle.laws.specs.Lists.{tabulate};
ghost use Rattle.paper.specs.Ladder.{buckets};
ghost use Rattle.paper.specs.Flow.{scenarios};
ghost use Rattle.posting.specs.Parts.{AtMost, FlowParts, RowParts, Enters, row_flow, row_sum, trillion};

use crate::cells::{add_row, add_rows};
use crate::room::admit;
use paper::{BUCKETS, Fault, SCENARIOS};
use scales::Thousands;

// The sum of the row that each scenario has.
fn scenario_sums(sums: &[u64], which: &[usize; SCENARIOS]) -> [u64; SCENARIOS]
    requires by_index { (i : ℕ) → i < scenarios → get_or which.now i 0 < length sums.now }
    ensures { result ≡ tabulate (row_sum sums.now which.now) scenarios }
{
    let mut more = [0u64; SCENARIOS];
    for (i, row) in which.iter().enumerate() {
        more[i] = sums[*row];
    }
    more
}

// The rows one after another, the row that each scenario has, and the sum of each row.
pub fn enter_rows(
    rows: &[u64],
    which: &[usize; SCENARIOS],
    side: u32,
    sums: &[u64],
    section: &mut [i64],
    sizes: &mut [u64],
) -> Result<(), Fault>
    requires row_parts { RowParts rows.now which.now sums.now }
    requires flow_parts { FlowParts section.old sizes.old }
    ensures { Enters (row_flow rows.now which.now) side (row_sum sums.now which.now) section sizes result }
{
    admit(sizes, &scenario_sums(sums, which))?;
    add_rows(section, side, rows, which);
    Ok(())
}

// The same nineteen flows in every scenario.
pub fn enter_row(
    row: &[u64; BUCKETS],
    side: u32,
    size: Thousands,
    section: &mut [i64],
    sizes: &mut [u64],
) -> Result<(), Fault>
    requires row_small { AtMost trillion row.now × (size.0 ≤ trillion) }
    requires flow_parts { FlowParts section.old sizes.old }
    ensures { Enters (λ j. get_or row.now (j % buckets) 0) side (λ i. size.0) section sizes result }
{
    let more = [size.0; SCENARIOS];
    admit(sizes, &more)?;
    add_row(section, side, row);
    Ok(())
}
