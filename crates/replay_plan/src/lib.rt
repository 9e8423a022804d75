// Planning on the words of a stored case's line.
#![tactic(auto)]

pub mod operation;
