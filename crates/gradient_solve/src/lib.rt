// The start of a run, and the solve.
#![tactic(auto)]

pub mod inner;
pub mod launch;
