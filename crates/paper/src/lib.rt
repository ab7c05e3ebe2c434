// The paper's own words as types and its numbers as constants, so that its definitions and the code speak of one list of causes and of one size of
// everything. What is said of the types stands in specs/.
#![tactic(auto)]

ghost use Rattle.std.specs.Prelude.{[], ◌∷◌, ◌≡◌, pos};
ghost use Rattle.paper.specs.Ladder.{buckets};
ghost use Rattle.paper.specs.Records.{currencies, kind_count};
ghost use Rattle.paper.specs.Flow.{scenarios, shocked};
ghost use Rattle.paper.specs.Ledger.{section_size, cells, figures};
ghost use Rattle.paper.specs.TurnedDown.{longest_book};
ghost use Rattle.paper.specs.Stored.{stored_currencies};
ghost use Rattle.paper.specs.Refusals.{number_of};
ghost use Rattle.paper.specs.Verdict.{verdict_number};

pub const CURRENCIES: usize = 32;

pub const KINDS: usize = 10;

pub const BUCKETS: usize = 19;

// The base and the six.
pub const SCENARIOS: usize = 7;

// The six alone, which have changes, tolerances and add-ons.
pub const SHOCKED: usize = SCENARIOS - 1;

// A currency's cells of the ledger.
pub const SECTION: usize = SCENARIOS * BUCKETS;

pub const CELLS: usize = SECTION * CURRENCIES;

// The report: the changes, then six sums, measure, worst, total tolerance and verdict.
pub const CHANGES: usize = SHOCKED * CURRENCIES;

pub const FIGURES: usize = CHANGES + 10;

// A report that was stored when there were fewer currencies (02, request 7).
pub const STORED_CURRENCIES: usize = 8;

pub const STORED_CHANGES: usize = SHOCKED * STORED_CURRENCIES;

pub const STORED_FIGURES: usize = STORED_CHANGES + 10;

// In bytes.
pub const LONGEST_BOOK: usize = 65528;

// The constants are the paper's numbers.
fn sizes() -> [usize; 11]
    ensures { result ≡ currencies ∷ kind_count ∷ buckets ∷ scenarios ∷ shocked ∷ section_size ∷ cells currencies ∷ figures currencies ∷ stored_currencies ∷ figures stored_currencies ∷ longest_book ∷ [] }
{
    [
        CURRENCIES,
        KINDS,
        BUCKETS,
        SCENARIOS,
        SHOCKED,
        SECTION,
        CELLS,
        FIGURES,
        STORED_CURRENCIES,
        STORED_FIGURES,
        LONGEST_BOOK,
    ]
}

// Turned down: the causes, in the order of their numbers. `number_of` in specs/Refusals.antt gives each one's number.
#[derive(Clone, Copy)]
pub enum Refusal {
    UnknownKind = 1,
    CutShort,
    BadCurrency,
    BadSide,
    BadTerm,
    TooLarge,
    BadShare,
    BadCategory,
    CoreAboveCap,
    CoreTooLong,
    InterestAlone,
    SecondCurve,
    OutOfRange,
    OverLimit,
    NoCurve,
    BadCapital,
    BookTooLong,
    RoomTooSmall,
    UnknownEdition,
    CodeNotListed,
}

impl From<Refusal> for u32 {
    ghost from_gives = { λ cause number. number ≡ number_of cause };

    fn from(cause: Refusal) -> u32 {
        cause as u32
    }
}

// A cause, and the place of what is at fault.
#[derive(Clone, Copy)]
pub struct Fault {
    pub cause: Refusal,
    pub place: usize,
}

// Shock sizes, in basis points.
#[derive(Clone, Copy)]
pub struct Shocks {
    pub parallel: u32,
    pub short: u32,
    pub long: u32,
}

// The verdict against Tier 1 capital. `verdict_number` in specs/Verdict.antt gives each one's number.
#[derive(Clone, Copy)]
pub enum Verdict {
    Over = 1,
    Within,
    Close,
}

impl From<Verdict> for i64 {
    ghost from_gives = { λ verdict number. number ≡ pos (verdict_number verdict) };

    fn from(verdict: Verdict) -> i64 {
        verdict as i64
    }
}
