// Runs the numbers of 01 that are not marked P, and each refusal with its place: the cases are in the file stdin.
// The stored output was worked out from 01, not taken from a run.
#![tactic(auto)]

mod rooms;
mod show;

use cases::{read_case, skip};
use input::read_input;
use rooms::{show_ledger_room, show_report_room};
use show::{say, show};

const LONGEST: usize = 65535;

// Only comments stand before the first case. A case that is badly written ends the run, and so does a text that was not read whole.
fn run_cases(rt: &impl Print, text: &[u8]) -> Option<()> {
    let mut bytes = [0u8; 65537];
    let mut rest = skip(text);
    while !rest.is_empty() {
        if text.len() > LONGEST {
            return None;
        }
        let case = read_case(rest, &mut bytes)?;
        show(rt, case.label, &bytes[..case.count]);
        rest = case.rest;
    }
    Some(())
}

// One byte more than the longest text, so that a longer one is seen to be longer.
fn main(rt: HostRuntime) {
    let mut room = [0u8; LONGEST + 1];
    let Ok(length) = read_input(&mut rt.stdin(), &mut room) else {
        say(&rt, b"standard input cannot be read\n");
        return;
    };
    if run_cases(&rt, &room[..length]).is_none() {
        say(&rt, b"bad text\n");
    }
    show_report_room(&rt);
    show_ledger_room(&rt);
}
