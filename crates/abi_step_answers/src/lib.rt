// The answers of the step's calls as the numbers that a C caller is told, beside crate `abi_answers`; and their tally as seven counts.
#![tactic(auto)]

pub mod counts;
pub mod marked;
pub mod responded;
pub mod stepped;
