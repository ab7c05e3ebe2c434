// What the report program prints for its input (01, "The report program"): everything of it but the reading and the writing.
#![tactic(auto)]

ghost use Rattle.std.specs.Prelude.{◌++◌, ◌≡◌, ◌≤◌, length, drop};
ghost use Rattle.paper.specs.Refusals.{number_of};
ghost use Rattle.paper.specs.Records.{currencies};
ghost use Rattle.paper.specs.Program.{capital_in, program_outcome, refusal_text, printed};
ghost use Rattle.book.specs.Assessed.{Answers};
ghost use Rattle.text.specs.Longest.{longest_text};

use book::assess::{assess, without_place};
use paper::{CELLS, FIGURES, Fault, LONGEST_BOOK, Refusal};
use scales::Thousands;
use text::refusal::write_refusal;
use text::report::write_report;

// The bytes of T, which stand before the book.
pub const CAPITAL: usize = 8;

const LONGEST_INPUT: usize = CAPITAL + LONGEST_BOOK;

// T in 8 bytes, unsigned, the highest first.
pub fn capital_in(input: &[u8]) -> Thousands
    requires { 8 ≤ length input.now }
    ensures { result.0 ≡ capital_in input.now }
{
    Thousands(u64::from_be_bytes([
        input[0], input[1], input[2], input[3], input[4], input[5], input[6], input[7],
    ]))
}

// The answer to an input, in rooms that are just as long as a report and a ledger.
pub fn answer(
    input: &[u8],
    report: &mut [i64; FIGURES],
    ledger: &mut [i64; CELLS],
) -> Result<u32, Fault>
    ensures { Answers (program_outcome currencies input.now) (capital_in input.now) report.old ledger.old result report.new ledger.new }
{
    if input.len() > LONGEST_INPUT {
        return Err(without_place(Refusal::BookTooLong));
    }
    if input.len() < CAPITAL {
        return Err(without_place(Refusal::BadCapital));
    }
    let tier1 = capital_in(input);
    assess(&input[CAPITAL..], tier1, report, ledger)
}

// R with the number of the cause, and its place.
pub fn print_refusal(fault: Fault, out: &mut [u8]) -> usize
    requires { 64 ≤ length out.old }
    ensures value { (result ≡ length (refusal_text (number_of fault.cause) fault.place)) × (result ≤ 64) }
    ensures out_after { out.new ≡ refusal_text (number_of fault.cause) fault.place ++ drop result out.old }
{
    let number = u64::from(u32::from(fault.cause));
    write_refusal(number, fault.place as u64, out)
}

// Answers how many bytes it prints; those after them are left as they are.
pub fn print_answer(input: &[u8], out: &mut [u8]) -> usize
    requires { longest_text ≤ length out.old }
    ensures value { (result ≡ length (printed currencies input.now)) × (result ≤ longest_text) }
    ensures out_after { out.new ≡ printed currencies input.now ++ drop result out.old }
{
    let mut report = [0i64; FIGURES];
    let mut ledger = [0i64; CELLS];
    match answer(input, &mut report, &mut ledger) {
        Ok(curves) => write_report(&report, curves, out),
        Err(fault) => print_refusal(fault, out),
    }
}
