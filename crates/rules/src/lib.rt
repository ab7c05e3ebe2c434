// The tests that a deposit and a loan must meet as a whole, once their fields are read: refusals 9, 10 and 11 (01, "Turned down").
#![tactic(auto)]

pub mod deposit;
pub mod loan;
