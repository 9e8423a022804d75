// The step solve and the response on the words of a stored case's line.
#![tactic(auto)]

mod call;
mod ending;
mod lent;
pub mod lines;
pub mod operation;
mod respond;
mod solve;
