// Reads T and a book from standard input and prints the report, or the line of the refusal (01, "The report program").
#![tactic(auto)]

use input::run;
use printing::print_answer;
use text::LONGEST_TEXT;

fn main(rt: HostRuntime) {
    let mut out = [0u8; LONGEST_TEXT];
    run(&rt, "irreport", print_answer, &mut out);
}
