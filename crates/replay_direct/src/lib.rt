// The direct solve and the step's factor on the words of a stored case's line.
#![tactic(auto)]

mod factor;
mod mark;
pub mod operation;
mod solve;
