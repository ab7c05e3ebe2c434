// How the working arrays of the code stand for the paper's functions of the records kept: definitions, laws, and the masks of currencies.
#![tactic(auto)]

pub mod masks;
