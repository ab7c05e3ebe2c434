// The book is walked record by record, first byte to last: a reader holds the lent book and its position. The work is done on slice and number by `stands_at`.
#![tactic(auto)]

ghost use Rattle.std.specs.Prelude.{◌≡◌};
ghost use Rattle.reader.specs.Reader.{stands_at, Reads, bytes_left};

use kinds::Kind;
use paper::{Fault, Refusal};

#[derive(Clone, Copy)]
pub struct Reader<'a> {
    pub book: &'a [u8],
    pub at: usize,
}

// A whole record is told by its kind, its first byte, and where it ends, which is the place of the next.
#[derive(Clone, Copy)]
pub struct Found {
    pub kind: Kind,
    pub at: usize,
    pub next: usize,
}

// Nothing at the book's end.
fn stands_at(book: &[u8], at: usize) -> Option<Result<Found, Fault>>
    ensures { result ≡ stands_at book.now at }
{
    let byte = *book.get(at)?;
    let kind = match Kind::try_from(byte) {
        Ok(kind) => kind,
        Err(cause) => return Some(Err(Fault { cause, place: at })),
    };
    let start = at + 1;
    let bytes = kind.body_length();
    let next = start + bytes;
    if book.len() < next {
        let cause = Refusal::CutShort;
        return Some(Err(Fault { cause, place: at }));
    }
    Some(Ok(Found { kind, at, next }))
}

impl<'a> Reader<'a> {
    pub fn new(book: &'a [u8]) -> Reader<'a>
        ensures { (result.book ≡ book.entry) × (result.at ≡ 0) }
    {
        Reader { book, at: 0 }
    }

    // To another place of its book, as past a record.
    pub fn moved(self, past: usize) -> Reader<'a>
        ensures { (result.book ≡ self.entry.book) × (result.at ≡ past) }
    {
        Reader { at: past, ..self }
    }
}

// The records, each where the one before it ends; or 1 or 2, after which nothing more comes.
impl<'a> Iterator for Reader<'a> {
    type Item = Result<Found, Fault>;

    ghost next_gives = { Reads };

    ghost remaining = { bytes_left };

    fn next(&mut self) -> Option<Result<Found, Fault>> {
        let found = stands_at(self.book, self.at)?;
        self.at = match found {
            Ok(record) => record.next,
            Err(_) => self.book.len(),
        };
        Some(found)
    }
}
