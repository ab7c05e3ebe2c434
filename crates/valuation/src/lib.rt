// From flows to the verdict (01, "From flows to verdict"): the report of the arrays into which a book's records were slotted.
#![tactic(auto)]

ghost use Rattle.std.specs.Prelude.{◌≡◌, ◌≤◌};
ghost use Rattle.paper.specs.Records.{currencies};
ghost use Rattle.paper.specs.Verdict.{report_of};
ghost use Rattle.arrays.specs.Masks.{curved_by};
ghost use Rattle.arrays.specs.Rooms.{totals_by};
ghost use Rattle.valuation.specs.Lengths.{ReportLengths};
ghost use Rattle.valuation.specs.Bounds.{Bounds};

use arrays::masks::{has_curve, last_of};
use change::fill_currency;
use paper::CHANGES;
use scales::Thousands;

mod report;

// The report of the ledger, the rates and the add-ons. A currency without a curve has nothing in it and is passed
// over, and past the last with a curve none is looked at.
pub fn fill_report(
    ledger: &[i64],
    rates: &[i32],
    add_ons: &[i64],
    curved: u32,
    tier1: Thousands,
    report: &mut [i64],
)
    requires report_lengths { ReportLengths ledger.now rates.now add_ons.now report.old }
    requires tier1_bound { tier1.0 ≤ 1_000_000_000_000 }
    requires bounds { Bounds (totals_by ledger.now add_ons.now rates.now) (curved_by curved) }
    ensures { report.new ≡ report_of currencies (totals_by ledger.now add_ons.now rates.now) tier1.0 }
{
    let mut changes = [0i64; CHANGES];
    let mut tolerances = [0i64; CHANGES];
    let last = last_of(curved) as usize;
    for c in 0..last {
        if has_curve(curved, c as u32 + 1) {
            fill_currency(ledger, rates, add_ons, c, &mut changes, &mut tolerances);
        }
    }
    report::write_report(&changes, &tolerances, last, tier1, report);
}
