// Reports that were stored when currencies were 1 to 8 (02, request 7).
#![tactic(auto)]

ghost use Rattle.std.specs.Prelude.{◌≡◌, length};
ghost use Rattle.paper.specs.Records.{currencies};
ghost use Rattle.paper.specs.Ledger.{figures};
ghost use Rattle.paper.specs.Stored as Stored;
ghost use Rattle.paper.specs.Stored.{stored_currencies, cannot_widen};
ghost use Rattle.stored.specs.Stored.{Widens, AsFresh};

use paper::{CHANGES, FIGURES, Fault, Refusal, STORED_CHANGES, STORED_FIGURES};

fn cannot_widen(stored: usize, report: usize) -> bool
    ensures { result ≡ cannot_widen stored_currencies currencies stored report }
{
    stored != STORED_FIGURES || report < FIGURES
}

// Number by number: of the library's `copy_from_slice` the compiler would make a call of `memmove`, which whoever links the archive would have to supply.
fn copy(numbers: &[i64], cells: &mut [i64])
    requires { length numbers.now ≡ length cells.old }
    ensures { cells.new ≡ numbers.now }
{
    for (k, cell) in cells.iter_mut().enumerate() {
        *cell = numbers[k];
    }
}

// The list and the room are as long as the one report and the other.
fn write_widened(stored: &[i64], report: &mut [i64])
    requires { (length stored.now ≡ figures stored_currencies) × (length report.old ≡ figures currencies) }
    ensures { report.new ≡ Stored.widened stored_currencies currencies stored.now }
{
    copy(&stored[0..STORED_CHANGES], &mut report[0..STORED_CHANGES]);
    report[STORED_CHANGES..CHANGES].fill(0);
    copy(
        &stored[STORED_CHANGES..STORED_FIGURES],
        &mut report[CHANGES..FIGURES],
    );
}

// A list of another length than a stored report has and a room that is too small are turned down alike.
pub fn widen(stored: &[i64], report: &mut [i64]) -> Result<(), Fault>
    ensures widens { Widens stored.now report.old result report.new }
    ensures as_fresh { AsFresh stored.now report.old report.new }
{
    if cannot_widen(stored.len(), report.len()) {
        return Err(Fault {
            cause: Refusal::RoomTooSmall,
            place: 0,
        });
    }
    write_widened(stored, &mut report[0..FIGURES]);
    Ok(())
}
