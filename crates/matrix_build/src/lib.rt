// The pattern from its pairs: the rows filled from their lists, and the whole.
#![tactic(auto)]

pub mod filling;
pub mod inner;
