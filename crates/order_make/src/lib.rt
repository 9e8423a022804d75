// The ordering of a pattern's particles (rules, module 3): the placing, and the whole order.
#![tactic(auto)]

pub mod inner;
mod place;
