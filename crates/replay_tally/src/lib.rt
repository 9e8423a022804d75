// The tally of a stored case's line.
#![tactic(auto)]

pub mod record;
