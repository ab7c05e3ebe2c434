// From changes to the verdict (01, "From flows to verdict"): the sums of losses, the measure, the worst, the verdict.
#![tactic(auto)]

pub mod measure;
pub mod verdict;
