// What follows a run that did not converge: its x rescaled.
#![tactic(auto)]

pub mod finish;
