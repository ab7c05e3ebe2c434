// Rooms that are too short (18).
use crate::show::say;
use book::assess::assess;
use paper::{CELLS, FIGURES};
use scales::Thousands;
use text::refusal::write_refusal;

fn show_refusal(rt: &impl Print, label: &[u8], number: u64, place: u64) {
    let mut out = [0u8; 64];
    let count = write_refusal(number, place, &mut out);
    say(rt, label);
    say(rt, &out[..count]);
}

// `print_answer` lends rooms that suffice, so 18 is asked of `assess` itself; a report is shown as nothing.
pub fn show_room(rt: &impl Print, label: &[u8], report: &mut [i64], ledger: &mut [i64]) {
    let empty = [0u8; 0];
    let Err(fault) = assess(&empty, Thousands(1), report, ledger) else {
        return;
    };
    let number = u32::from(fault.cause) as u64;
    show_refusal(rt, label, number, fault.place as u64);
}

// Each has its rooms for itself, so that both stand on the stack in the same place.
pub fn show_report_room(rt: &impl Print) {
    show_room(rt, b"report room 201\n", &mut [0; 201], &mut [0; CELLS]);
}

pub fn show_ledger_room(rt: &impl Print) {
    show_room(
        rt,
        b"ledger room 4,255\n",
        &mut [0; FIGURES],
        &mut [0; 4255],
    );
}
