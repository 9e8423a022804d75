// The two passes over the factor's rows.
#![tactic(auto)]

pub mod passes;
