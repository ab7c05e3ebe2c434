// The walk over the book: one reader goes from record to record, first byte to last, until they end or one is refused.
ghost use Rattle.std.specs.Prelude.{[], ◌≡◌};
ghost use Rattle.arrays.specs.Arrays.{arrays_of};
ghost use Rattle.lending.specs.Working.{arrays_in};
ghost use Rattle.load.specs.Walk.{Walks};

use arrays::masks::Masks;
use lending::Working;
use paper::Fault;
use reader::Reader;
use turn::take_record;

pub fn walk(book: &[u8], working: &mut Working) -> Result<Masks, Fault>
    requires { arrays_in working.old ≡ arrays_of [] }
    ensures same_ledger { working.new.ledger.ghost_name ≡ working.old.ledger.ghost_name }
    ensures walks { Walks book.now result (arrays_in working.new) }
{
    let mut masks = Masks { used: 0, curved: 0 };
    for found in Reader::new(book) {
        masks = take_record(found?, book, masks, working)?;
    }
    Ok(masks)
}
