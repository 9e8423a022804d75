// The run of the conjugate gradient's turns.
#![tactic(auto)]

pub mod inner;
