// The report: 192 changes (currency by currency), 6 sums, measure, worst, total tolerance, verdict.
ghost use Rattle.std.specs.Prelude.{◌≡◌, ◌≤◌, pos, length};
ghost use Rattle.laws.specs.Lists.{tabulate_from};
ghost use Rattle.paper.specs.Records.{currencies};
ghost use Rattle.paper.specs.Flow.{scenarios, shocked};
ghost use Rattle.paper.specs.Ledger.{figures};
ghost use Rattle.paper.specs.Verdict.{scenario_sum, measure, report_from};
ghost use Rattle.arrays.specs.Rooms.{listed};
ghost use Rattle.verdict.specs.Figures.{Figures, most_of_a_sum};
ghost use Rattle.valuation.specs.Closing.{closing};

use paper::{CHANGES, FIGURES, SHOCKED};
use scales::Thousands;
use verdict::measure::{Greatest, greatest_sum, scenario_sum};
use verdict::verdict::verdict_of;

// The six sums start where the changes end, and here the last four numbers.
const CLOSING: usize = CHANGES + SHOCKED;

fn six_sums(changes: &[i64; CHANGES], last: usize) -> [i64; SHOCKED]
    requires { Figures last changes.now }
    ensures { result ≡ tabulate_from (λ i. pos (scenario_sum currencies (listed changes.now) i)) 1 shocked }
{
    let mut sums = [0i64; SHOCKED];
    for i in 0..SHOCKED {
        sums[i] = scenario_sum(changes, last, i + 1).0 as i64;
    }
    sums
}

// Measure, worst, total tolerance, verdict.
fn closing(worst: Greatest, tolerance: Thousands, tier1: Thousands) -> [i64; 4]
    requires sum_le_most_of_asum { (worst.sum.0 ≤ most_of_a_sum) × (worst.scenario ≤ scenarios) × (tolerance.0 ≤ most_of_a_sum) }
    requires tier1_bound { tier1.0 ≤ 1_000_000_000_000 }
    ensures { result ≡ closing worst.sum.0 worst.scenario tolerance.0 tier1.0 }
{
    let verdict = verdict_of(worst.sum, tolerance, tier1);
    [
        worst.sum.0 as i64,
        worst.scenario as i64,
        tolerance.0 as i64,
        i64::from(verdict),
    ]
}

// The total tolerance is the measure of the tolerances.
pub fn write_report(
    changes: &[i64; CHANGES],
    tolerances: &[i64; CHANGES],
    last: usize,
    tier1: Thousands,
    report: &mut [i64],
)
    requires figures { Figures last changes.now × Figures last tolerances.now }
    requires tier1_bound { (tier1.0 ≤ 1_000_000_000_000) × (length report.old ≡ figures currencies) }
    ensures { report.new ≡ report_from currencies (listed changes.now) (measure currencies (listed tolerances.now)) tier1.0 }
{
    let worst = greatest_sum(changes, last);
    let tolerance = greatest_sum(tolerances, last).sum;
    report[0..CHANGES].copy_from_slice(changes);
    report[CHANGES..CLOSING].copy_from_slice(&six_sums(changes, last));
    report[CLOSING..FIGURES].copy_from_slice(&closing(worst, tolerance, tier1));
}
