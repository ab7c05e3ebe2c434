// Kinds 4 to 6, whose flows follow the behaviour of customers (001, 6): the rows of nineteen flows that a body gives, at each of the rates that
// there are.
#![tactic(auto)]

pub mod amounts;
mod course;
pub mod deposit;
pub mod loan;
pub mod rates;
pub mod term_deposit;
