// The test of a plan beside the pattern that it is to enclose.
#![tactic(auto)]

pub mod inside;
