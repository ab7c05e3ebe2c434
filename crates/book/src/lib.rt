// The entry function (01, "From flows to verdict", "Turned down").
#![tactic(auto)]

pub mod assess;
