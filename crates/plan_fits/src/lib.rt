// When a plan fits, as definitions; and a plan as a call is handed it.
#![tactic(auto)]

pub mod plan;
