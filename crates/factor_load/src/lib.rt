// The load: the permuted matrix's lower triangle into the envelope.
#![tactic(auto)]

pub mod blocks;
pub mod inner;
