// One currency: its changes in economic value, and the tolerance of each. Its own parts of the arrays, 133 cells, 133 rates and 6 add-ons, are
// read as currency 1's.
#![tactic(auto)]

ghost use Rattle.std.specs.Prelude.{◌≡◌, [], ℕ, ◌+◌, ◌*◌, ◌<◌, ◌≤◌, nat_abs, length};
ghost use Rattle.laws.specs.Nearest.{nearest_ℤ};
ghost use Rattle.paper.specs.Scales.{billion};
ghost use Rattle.paper.specs.Records.{currencies};
ghost use Rattle.paper.specs.Flow.{scenarios, shocked};
ghost use Rattle.paper.specs.Ledger.{section_size};
ghost use Rattle.paper.specs.Change.{value, net_size, tolerance_of};
ghost use Rattle.arrays.specs.Rooms.{totals_by};
ghost use Rattle.change.specs.Lengths.{FiguresLengths, CurrencyLengths};
ghost use Rattle.change.specs.Bounds.{BoundedRow, Bounded};
ghost use Rattle.change.specs.Figures.{own_changes, own_tolerances, with_changes, with_tolerances};

use factor::factor;
use ladder::{Exponent, midpoints};
use paper::{BUCKETS, SECTION, SHOCKED};
use scales::{Millionths, SignedThousands, TenThousandthYears, Thousands};
use signed::rounded;

// The sum of magnitudes of a scenario's net flows.
fn net_size(cells: &[i64], scenario: usize) -> Thousands
    requires cells_len { (length cells.now ≡ section_size) × (scenario < scenarios) }
    requires scenario_bound { net_size (totals_by cells.now [] []) 1 scenario ≤ billion }
    ensures { result.0 ≡ net_size (totals_by cells.now [] []) 1 scenario }
{
    let start = BUCKETS * scenario;
    let mut size = Thousands(0);
    for k in 0..BUCKETS {
        size.0 += cells[start + k].unsigned_abs();
    }
    size
}

// 26 A / 1,000,000,000 is rounded up.
fn tolerance_of(size: Thousands) -> Thousands
    requires { size.0 ≤ 2 * billion }
    ensures { result.0 ≡ tolerance_of size.0 }
{
    if size.0 == 0 {
        Thousands(0)
    } else {
        Thousands(1 + (26 * size.0).div_ceil(1_000_000_000))
    }
}

// The sum of flow times factor, in billionths.
fn value_of(cells: &[i64], rates: &[i32], scenario: usize) -> i64
    requires cells_len { (length cells.now ≡ section_size) × (length rates.now ≡ section_size) × (scenario < scenarios) }
    requires bounded_row { BoundedRow (totals_by cells.now [] rates.now) 1 scenario }
    ensures { result ≡ value (totals_by cells.now [] rates.now) 1 scenario }
{
    let start = BUCKETS * scenario;
    let mut sum = 0;
    for (k, midpoint) in midpoints().iter().enumerate() {
        let rate = Millionths(rates[start + k] as i64);
        let exponent = Exponent::of(rate, TenThousandthYears::from(*midpoint));
        sum += cells[start + k] * (factor(exponent) as i64);
    }
    sum
}

fn in_thousands(billionths: i64) -> SignedThousands
    requires { nat_abs billionths ≤ 7_000_000_000 * billion }
    ensures { result.0 ≡ nearest_ℤ billionths billion }
{
    SignedThousands(rounded(billionths))
}

// The six changes.
fn fill_changes(cells: &[i64], rates: &[i32], add_ons: &[i64], changes: &mut [i64])
    requires currency_lengths { CurrencyLengths cells.now rates.now add_ons.now changes.old }
    requires bounded { Bounded (totals_by cells.now add_ons.now rates.now) 1 }
    ensures { changes.new ≡ own_changes cells.now add_ons.now rates.now }
{
    let base = value_of(cells, rates, 0);
    for (i, change) in changes.iter_mut().enumerate() {
        let value = value_of(cells, rates, i + 1);
        *change = in_thousands(base - value).0 + add_ons[i];
    }
}

// The tolerance of each.
pub fn fill_tolerances(cells: &[i64], tolerances: &mut [i64])
    requires cells_len { (length cells.now ≡ section_size) × (length tolerances.old ≡ shocked) }
    requires by_index { (i : ℕ) → i < scenarios → net_size (totals_by cells.now [] []) 1 i ≤ billion }
    ensures { tolerances.new ≡ own_tolerances cells.now }
{
    let base = net_size(cells, 0);
    for (i, tolerance) in tolerances.iter_mut().enumerate() {
        let size = Thousands(base.0 + net_size(cells, i + 1).0);
        *tolerance = tolerance_of(size).0 as i64;
    }
}

// The figures of currency c + 1, each in its currency's place among the 192.
pub fn fill_currency(
    ledger: &[i64],
    rates: &[i32],
    add_ons: &[i64],
    c: usize,
    changes: &mut [i64],
    tolerances: &mut [i64],
)
    requires figures_lengths { FiguresLengths ledger.now rates.now add_ons.now changes.old tolerances.old }
    requires c_lt_currencies { c < currencies }
    requires bounded { Bounded (totals_by ledger.now add_ons.now rates.now) (c + 1) }
    ensures changes_after { changes.new ≡ with_changes ledger.now add_ons.now rates.now c changes.old }
    ensures tolerances_after { tolerances.new ≡ with_tolerances ledger.now add_ons.now rates.now c tolerances.old }
{
    let start = SECTION * c;
    let end = start + SECTION;
    let six = SHOCKED * c;
    let next = six + SHOCKED;
    fill_changes(
        &ledger[start..end],
        &rates[start..end],
        &add_ons[six..next],
        &mut changes[six..next],
    );
    fill_tolerances(&ledger[start..end], &mut tolerances[six..next]);
}
