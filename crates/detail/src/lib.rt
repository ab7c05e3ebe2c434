// What stands behind a report: the lines that `irdetail` prints after those of `irreport`, written into a buffer that the caller lends.
#![tactic(auto)]

use paper::{CURRENCIES, KINDS};

pub mod behind;
mod currency;
pub mod standing;

// `longest_behind` in specs/Behind.antt.
pub const LONGEST_BEHIND: usize = (2 * 156 + 14 * 464 + (24 + 22 * KINDS)) * CURRENCIES + 129;
