// A matrix's values: the product, and all zero.
#![tactic(auto)]

pub mod inner;
