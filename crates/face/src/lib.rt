// The face of `assess` for callers in other languages, and in widening.rt that of `widen`: numbers and slices only. It is a crate of its own, because the archive proves its crate once more.
#![tactic(auto)]

ghost use Rattle.book.specs.Assessed.{Truthful};
ghost use Rattle.face.specs.Face.{Faces};

use book::assess::assess;
use place::tell;
use scales::Thousands;

mod place;
mod widening;

// 0 and place 0 where the report was written, else the refusal's number and its place.
#[unsafe(no_mangle)]
pub extern "C" fn vorlegan_assess(
    book: &[u8],
    tier1: u64,
    report: &mut [i64],
    ledger: &mut [i64],
    place: &mut [u64],
) -> u32
    ensures faces { Faces book.now tier1 report ledger place result }
    ensures truthful { Truthful book.now tier1 report.old ledger.old report.new }
{
    tell(assess(book, Thousands(tier1), report, ledger), place)
}
