// What the order's start and its placing share: sorting, and lists written in one pass.
#![tactic(auto)]

pub mod sort;
pub mod tables;
