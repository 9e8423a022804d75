// The block matrix's operations on the words of a stored case's line.
#![tactic(auto)]

mod blocks;
mod build;
pub mod operation;
