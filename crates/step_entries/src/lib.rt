// The entries of a response: which count, what they load, and the gain.
#![tactic(auto)]

pub mod entries;
