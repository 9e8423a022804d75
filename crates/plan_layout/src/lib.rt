// The lists of a plan, each by itself: an order's inverse, the column and the place where each row of the envelope starts.
#![tactic(auto)]

pub mod ordered;
pub mod rows;
pub mod tables;
