// The graph of a pattern, and the breadth-first search over it.
#![tactic(auto)]

pub mod breadth;
pub mod graph;
