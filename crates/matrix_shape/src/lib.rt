// The shape of a block matrix: its lists lent together, when it is well formed, as a definition with its laws, and the search for a slot.
#![tactic(auto)]

pub mod index;
pub mod pattern;
