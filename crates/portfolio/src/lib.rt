// Kinds 4 to 6: one function a kind decodes the body, tests 14 and writes into its currency's own parts of the arrays.
#![tactic(auto)]

pub mod deposit;
pub mod loan;
pub mod term_deposit;
