// The conjugate gradient's operations on the words of a stored case's line.
#![tactic(auto)]

pub mod ending;
pub mod operation;
mod solve;
mod update;
