// Kinds 1 to 3 and 7 to 10: one function a kind decodes the body, tests 14 and writes into its currency's own parts of the arrays (01, "Records" and refusal 14). 14 is tested
// before anything is written: a record that is refused changes nothing.
#![tactic(auto)]

pub mod coupons;
pub mod curves;
pub mod floating;
pub mod floating_spread;
pub mod option_add_on;
pub mod single;
