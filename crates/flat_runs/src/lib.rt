// Stretches of lent lists, float by float.
#![tactic(auto)]

pub mod run;
