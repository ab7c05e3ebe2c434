// The writers of a section: a scenario's nineteen cells start at 19 times the scenario.
ghost use Rattle.std.specs.Prelude.{ℕ, ◌+◌, ◌*◌, ◌%◌, ◌<◌, ◌≤◌, ◌≡◌, length, get_or, set, pos, nat_abs, ◌+ℤ◌};
ghost use Rattle.std.specs.Int.{w64};
ghost use Rattle.std.proofs.Common.{SFits};
ghost use Rattle.laws.specs.Lists.{tabulate};
ghost use Rattle.paper.specs.Flow.{scenarios, sided};
ghost use Rattle.paper.specs.Ladder.{buckets};
ghost use Rattle.paper.specs.Ledger.{section_size};
ghost use Rattle.arrays.specs.Slots.{plus_ℤ};
ghost use Rattle.posting.specs.Parts.{AtMost, AtMostℤ, column, row_flow, trillion};

use paper::{BUCKETS, SCENARIOS};
use scales::{SignedThousands, Thousands};

// An asset plus, a liability minus; an option sold plus, one bought minus.
pub fn sided(side: u32, value: SignedThousands) -> SignedThousands
    requires { nat_abs value.0 ≤ trillion }
    ensures { result.0 ≡ sided side value.0 }
{
    if side == 1 {
        return value;
    }
    SignedThousands(-value.0)
}

pub fn sided_amount(side: u32, amount: Thousands) -> SignedThousands
    requires { amount.0 ≤ trillion }
    ensures { result.0 ≡ sided side (pos amount.0) }
{
    sided(side, SignedThousands(amount.0 as i64))
}

pub fn add_into(cells: &mut [i64], at: usize, amount: SignedThousands)
    requires at_in_bounds { at < length cells.old }
    requires sfits { SFits w64 (get_or cells.old at (pos 0) +ℤ amount.0) }
    ensures { cells.new ≡ set cells.old at (get_or cells.old at (pos 0) +ℤ amount.0) }
{
    cells[at] += amount.0;
}

// One amount in one bucket of every scenario.
pub fn post(section: &mut [i64], bucket: usize, amount: SignedThousands)
    requires section_len { (length section.old ≡ section_size) × (1 ≤ bucket) × (bucket ≤ buckets) }
    requires fact { AtMostℤ trillion section.old }
    requires amount_bound { nat_abs amount.0 ≤ trillion }
    ensures { section.new ≡ plus_ℤ section.old (column bucket amount.0) }
{
    for i in 0..SCENARIOS {
        let at = BUCKETS * i + (bucket - 1);
        add_into(section, at, amount);
    }
}

// Nineteen amounts, all of one side, as flows.
fn sided_row(side: u32, row: &[u64]) -> [i64; BUCKETS]
    requires row_len { length row.now ≡ buckets }
    requires at_most { AtMost trillion row.now }
    ensures { result ≡ tabulate (λ k. sided side (pos (get_or row.now k 0))) buckets }
{
    let mut flows = [0i64; BUCKETS];
    for (k, amount) in row.iter().enumerate() {
        flows[k] = sided_amount(side, Thousands(*amount)).0;
    }
    flows
}

fn add_cells(cells: &mut [i64], flows: &[i64])
    requires flows_len { length flows.now ≡ length cells.old }
    requires fact { AtMostℤ trillion cells.old }
    requires fact_2 { AtMostℤ trillion flows.now }
    ensures { cells.new ≡ plus_ℤ cells.old (λ j. get_or flows.now j (pos 0)) }
{
    for (j, flow) in flows.iter().enumerate() {
        add_into(cells, j, SignedThousands(*flow));
    }
}

// The same row in every scenario. Its signs are set once, in an array of this function's own: no cell lies in it, so the compiler adds two at a time.
pub fn add_row(section: &mut [i64], side: u32, row: &[u64; BUCKETS])
    requires section_len { length section.old ≡ section_size }
    requires fact { AtMostℤ trillion section.old }
    requires at_most { AtMost trillion row.now }
    ensures { section.new ≡ plus_ℤ section.old (λ j. sided side (pos (get_or row.now (j % buckets) 0))) }
{
    let flows = sided_row(side, row);
    for i in 0..SCENARIOS {
        let from = BUCKETS * i;
        let to = from + BUCKETS;
        add_cells(&mut section[from..to], &flows);
    }
}

// Rows of nineteen flows: each scenario has the row that the table names, signed first for the same reason.
pub fn add_rows(section: &mut [i64], side: u32, rows: &[u64], which: &[usize; SCENARIOS])
    requires section_len { length section.old ≡ section_size }
    requires fact { AtMostℤ trillion section.old }
    requires at_most { AtMost trillion rows.now }
    requires by_index { (i : ℕ) → i < scenarios → buckets * get_or which.now i 0 + buckets ≤ length rows.now }
    ensures { section.new ≡ plus_ℤ section.old (λ j. sided side (pos (row_flow rows.now which.now j))) }
{
    for (i, row) in which.iter().enumerate() {
        let from = BUCKETS * i;
        let to = from + BUCKETS;
        let first = BUCKETS * *row;
        let last = first + BUCKETS;
        let flows = sided_row(side, &rows[first..last]);
        add_cells(&mut section[from..to], &flows);
    }
}
