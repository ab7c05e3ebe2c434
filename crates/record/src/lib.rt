// The body of each kind, read field by field as the paper lays it out: the first refusal leaves at once (01, "Records" and "Turned down").
#![tactic(auto)]

pub mod body;
pub mod coupons;
pub mod curves;
pub mod deposit;
pub mod floating;
pub mod floating_spread;
pub mod loan;
pub mod option_add_on;
pub mod single;
pub mod term_deposit;
