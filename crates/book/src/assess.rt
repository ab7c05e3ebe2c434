// The entry function: it takes any bytes, any capital and any rooms, and answers each of them.
ghost use Rattle.std.specs.Prelude.{◌≡◌, ◌≤◌, length};
ghost use Rattle.paper.specs.Records.{currencies};
ghost use Rattle.paper.specs.Ledger.{cells, figures};
ghost use Rattle.paper.specs.TurnedDown.{bad_capital, room_too_small};
ghost use Rattle.paper.specs.Verdict.{report_of};
ghost use Rattle.arrays.specs.Masks.{curved_by};
ghost use Rattle.arrays.specs.Rooms.{totals_by};
ghost use Rattle.valuation.specs.Bounds.{Bounds};
ghost use Rattle.load.specs.Load.{of_records};
ghost use Rattle.book.specs.Assessed.{Answers, Assesses, Truthful, without_place};

use lending::Working;
use load::load;
use paper::{CELLS, FIGURES, Fault, LONGEST_BOOK, Refusal};
use scales::Thousands;
use valuation::fill_report;

// The report that the working arrays come to.
fn report_of(working: &Working, curved: u32, tier1: Thousands, report: &mut [i64])
    requires report_len { (length report.old ≡ figures currencies) × (length working.now.ledger.now ≡ cells currencies) }
    requires tier1_bound { tier1.0 ≤ 1_000_000_000_000 }
    requires bounds { Bounds (totals_by working.now.ledger.now working.now.addons working.now.rates) (curved_by curved) }
    ensures { report.new ≡ report_of currencies (totals_by working.now.ledger.now working.now.addons working.now.rates) tier1.0 }
{
    fill_report(
        working.ledger,
        &working.rates,
        &working.addons,
        curved,
        tier1,
        report,
    );
}

// The records, then the report: the capital and the rooms are those that 16 and 18 ask for.
fn assess_records(
    book: &[u8],
    tier1: Thousands,
    report: &mut [i64],
    ledger: &mut [i64],
) -> Result<u32, Fault>
    requires tier1_bound { tier1.0 ≤ 1_000_000_000_000 }
    requires report_len { (length report.old ≡ figures currencies) × (length ledger.old ≡ cells currencies) }
    ensures { Answers (of_records book.now) tier1.0 report.old ledger.old result report.new ledger.new }
{
    let mut working = Working::new(ledger);
    match load(book, &mut working) {
        Err(fault) => {
            ledger.fill(0);
            Err(fault)
        }
        Ok(curved) => {
            report_of(&working, curved, tier1, report);
            Ok(curved)
        }
    }
}

// 16 to 18 have no place in the book.
pub fn without_place(cause: Refusal) -> Fault
    ensures { result ≡ without_place cause }
{
    Fault { cause, place: 0 }
}

fn room_too_small(report: usize, ledger: usize) -> bool
    ensures { result ≡ room_too_small currencies report ledger }
{
    report < FIGURES || ledger < CELLS
}

fn bad_capital(tier1: Thousands) -> bool
    ensures { result ≡ bad_capital tier1.0 }
{
    !(1..=1_000_000_000_000).contains(&tier1.0)
}

// Which currencies have a curve, as a mask, where the report was written.
pub fn assess(
    book: &[u8],
    tier1: Thousands,
    report: &mut [i64],
    ledger: &mut [i64],
) -> Result<u32, Fault>
    ensures assesses { Assesses book.now tier1.0 report.old ledger.old result report.new ledger.new }
    ensures truthful { Truthful book.now tier1.0 report.old ledger.old report.new }
{
    if room_too_small(report.len(), ledger.len()) {
        return Err(without_place(Refusal::RoomTooSmall));
    }
    if book.len() > LONGEST_BOOK {
        return Err(without_place(Refusal::BookTooLong));
    }
    if bad_capital(tier1) {
        return Err(without_place(Refusal::BadCapital));
    }
    assess_records(book, tier1, &mut report[0..FIGURES], &mut ledger[0..CELLS])
}
