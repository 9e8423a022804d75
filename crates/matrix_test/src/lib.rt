// The test of a pattern: its starts, then the walk over rows and mirrors; and the same of a pattern as a call is handed it.
#![tactic(auto)]

pub mod formed;
pub mod given;
