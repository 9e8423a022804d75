// Which numbers given pairs join, and which pairs are no ground for refusal.
#![tactic(auto)]

pub mod given;
pub mod pairs;
