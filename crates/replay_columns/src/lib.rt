// The columns' calls on the words of a stored case's line.
#![tactic(auto)]

mod combine;
mod compute;
mod ending;
pub mod operation;
mod table;
