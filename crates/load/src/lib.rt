// The book is walked record by record into the working arrays, and then 15 is tested (01, "Records", "Turned down").
#![tactic(auto)]

ghost use Rattle.std.specs.Prelude.{[], ◌≡◌};
ghost use Rattle.arrays.specs.Arrays.{arrays_of};
ghost use Rattle.lending.specs.Working.{arrays_in};
ghost use Rattle.load.specs.Load.{Loads};

use lending::Working;
use paper::{Fault, Refusal};
use walk::walk;

mod walk;

// Which currencies have a curve, as a mask, where all records are kept.
pub fn load(book: &[u8], working: &mut Working) -> Result<u32, Fault>
    requires { arrays_in working.old ≡ arrays_of [] }
    ensures same_ledger { working.new.ledger.ghost_name ≡ working.old.ledger.ghost_name }
    ensures loads { Loads book.now result (arrays_in working.new) }
{
    let masks = walk(book, working)?;
    match masks.lowest_missing() {
        Some(missing) => Err(Fault {
            cause: Refusal::NoCurve,
            place: missing as usize,
        }),
        None => Ok(masks.curved),
    }
}
