// The bench program's text: n, the pair count p, then 2p numbers. Reading it is a part of the calls that are handed a text, so there is no door here.
#![tactic(auto)]

pub mod buffer;
mod head;
pub mod inner;
