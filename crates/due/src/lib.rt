// What falls due, the same in every scenario: one amount at a term, or coupons at regular periods with one amount. 14 is tested before anything is written.
#![tactic(auto)]

pub mod amount;
pub mod schedule;
