// The settings that a solve takes, and what the public calls refuse.
#![tactic(auto)]

pub mod given;
pub mod refuse;
