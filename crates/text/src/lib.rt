// The lines that `irreport` prints, written into a buffer that the caller lends (01, "The report program").
#![tactic(auto)]

use paper::CURRENCIES;

pub mod lines;
pub mod numbers;
pub mod page;
pub mod refusal;
pub mod report;

// A C line of 156 bytes for each currency, S of 134, M of 68, V of 9: `longest_text` in specs/Longest.antt.
pub const LONGEST_TEXT: usize = 156 * CURRENCIES + 211;
