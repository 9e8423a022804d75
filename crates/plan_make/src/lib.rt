// The plan of a pattern, over lists of just the length needed.
#![tactic(auto)]

pub mod inner;
