// What the kinds have in common: 14 and the sums that it is tested on, and the writers of a section.
#![tactic(auto)]

pub mod cells;
pub mod flows;
pub mod room;
