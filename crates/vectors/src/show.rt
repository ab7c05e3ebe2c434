// A line that names the case, then what the report program prints.
use printing::print_answer;
use text::LONGEST_TEXT;

// Nothing is done about a line that cannot be written: the output then differs from the stored one.
pub fn say(rt: &impl Print, line: &[u8]) {
    let _ = rt.write_all(line);
}

pub fn show(rt: &impl Print, label: &[u8], input: &[u8]) {
    let mut out = [0u8; LONGEST_TEXT];
    let count = print_answer(input, &mut out);
    say(rt, label);
    say(rt, &out[..count]);
}
