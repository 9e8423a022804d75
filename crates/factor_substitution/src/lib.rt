// The solve with the factor: the two passes over its rows, by particles.
#![tactic(auto)]

pub mod inner;
