// One turn of the walk: a whole record, taken into the working arrays. Every kind's body begins with its currency: it is read once, before the kind is looked at, and that
// currency's parts of the arrays are lent on.
#![tactic(auto)]

ghost use Rattle.std.specs.Prelude.{◌≡◌, ◌+◌, length, Ok, Some};
ghost use Rattle.paper.specs.Records.{body_length};
ghost use Rattle.arrays.specs.Arrays.{Holding};
ghost use Rattle.kinds.specs.Kind.{kind_number};
ghost use Rattle.lending.specs.Working.{arrays_in};
ghost use Rattle.reader.specs.Reader.{stands_at};
ghost use Rattle.turn.specs.Step.{Addressed, StepsOver, Turns, fault_at};

use arrays::masks::Masks;
use fields::currency_at;
use kinds::Kind;
use lending::Working;
use paper::Fault;
use reader::Found;

// A fault of a record is told where the record begins and so many bytes on (02, request 2).
fn placed(fault: Fault, at: usize) -> Fault
    requires { Addressed (at + fault.place) }
    ensures { result ≡ fault_at at fault }
{
    let place = at + fault.place;
    Fault { place, ..fault }
}

// A whole body.
fn take_body(kind: Kind, body: &[u8], masks: Masks, working: &mut Working) -> Result<Masks, Fault>
    requires { (length body.now ≡ body_length (kind_number kind)) × Holding masks (arrays_in working.old) }
    ensures same_ledger { working.new.ledger.ghost_name ≡ working.old.ledger.ghost_name }
    ensures steps { StepsOver (kind_number kind) body.now masks (arrays_in working.old) result (arrays_in working.new) }
{
    let currency = currency_at(body, 0)?;
    working.take(kind, currency, masks.curved, body)?;
    if kind.is_curve() {
        return Ok(masks.with_curve(currency));
    }
    Ok(masks.with_used(currency))
}

// What the reader has found.
pub fn take_record(
    found: Found,
    book: &[u8],
    masks: Masks,
    working: &mut Working,
) -> Result<Masks, Fault>
    requires { (Some (Ok found) ≡ stands_at book.now found.at) × Holding masks (arrays_in working.old) }
    ensures same_ledger { working.new.ledger.ghost_name ≡ working.old.ledger.ghost_name }
    ensures turns { Turns book.now found.at masks (arrays_in working.old) result (arrays_in working.new) }
{
    let body = &book[found.at + 1..found.next];
    match take_body(found.kind, body, masks, working) {
        Ok(masks) => Ok(masks),
        Err(fault) => Err(placed(fault, found.at)),
    }
}
