// A graph with its degrees, and the search for a stretch's start in it.
#![tactic(auto)]

pub mod ranked;
pub mod start;
