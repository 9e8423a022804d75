// The test of a plan by itself.
#![tactic(auto)]

pub mod plan;
