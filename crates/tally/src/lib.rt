// How many records a book has in all, and of each kind in each currency: ten counts for each currency, a kind each.
#![tactic(auto)]

ghost use Rattle.std.specs.Prelude.{List, [], ◌∷◌, ◌++◌, ◌≡◌, ℕ, suc, ◌*◌, ◌-◌, ◌<◌, ◌≤◌, pos, length, replicate, if◌then◌else◌};
ghost use Rattle.laws.specs.Tests.{◌is◌};
ghost use Rattle.paper.specs.Records.{currencies, kind_count};
ghost use Rattle.paper.specs.TurnedDown.{longest_book};
ghost use Rattle.paper.specs.Fields.{byte};
ghost use Rattle.paper.specs.Detail.{places};
ghost use Rattle.arrays.specs.Slots.{plus_ℤ};
ghost use Rattle.kinds.specs.Kind.{kind_number};
ghost use Rattle.tally.specs.Counts.{counts_of, Few};

use kinds::{Kind, body_length};
use paper::{CURRENCIES, KINDS};

pub const COUNTS: usize = KINDS * CURRENCIES;

// One more of a kind, among the counts of a currency.
fn count_kind(counts: &mut [i64], kind: Kind)
    requires ten { length counts.old ≡ kind_count }
    requires few { Few counts.old }
    ensures { counts.new ≡ plus_ℤ counts.old (λ j. if j is (kind_number kind - 1) then pos 1 else pos 0) }
{
    let k = kind as usize - 1;
    counts[k] += 1;
}

// One more of a kind in a currency. One of no kind or no currency is not counted; an accepted book has none.
fn count_record(number: u8, currency: u8, counts: &mut [i64])
    requires { (length counts.old ≡ kind_count * currencies) × Few counts.old }
    ensures { (book ps : List ℕ) (at : ℕ) → byte book at ≡ number → byte book (suc at) ≡ currency → counts.old ≡ counts_of book ps → counts.new ≡ counts_of book (ps ++ (at ∷ [])) }
{
    let Ok(kind) = Kind::try_from(number) else {
        return;
    };
    if !(1..=CURRENCIES as u8).contains(&currency) {
        return;
    }
    let from = KINDS * (currency as usize - 1);
    let to = from + KINDS;
    count_kind(&mut counts[from..to], kind);
}

// The byte after a record's kind: its currency. 0 where the book ends before it.
fn currency_after(book: &[u8], at: usize) -> u8
    requires { (at < length book.now) × (length book.now ≤ longest_book) }
    ensures { result ≡ byte book.now (suc at) }
{
    book.get(at + 1).copied().unwrap_or(0)
}

// Answers the number of all.
pub fn tally(book: &[u8], counts: &mut [i64]) -> u64
    requires book_len_bound { length book.now ≤ longest_book }
    requires counts_value { counts.old ≡ replicate (kind_count * currencies) (pos 0) }
    ensures value { result ≡ length (places book.now) }
    ensures counts_after { counts.new ≡ counts_of book.now (places book.now) }
{
    let mut count = 0;
    let mut at = 0;
    while let Some(kind) = book.get(at) {
        count_record(*kind, currency_after(book, at), counts);
        at += 1 + body_length(*kind);
        count += 1;
    }
    count
}
