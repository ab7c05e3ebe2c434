// Reads T and a book from standard input and prints the report and what stands behind it, or the line of the refusal.
#![tactic(auto)]

use detailing::{LONGEST_DETAIL, print_detail};
use input::run;

fn main(rt: HostRuntime) {
    let mut out = [0u8; LONGEST_DETAIL];
    run(&rt, "irdetail", print_detail, &mut out);
}
