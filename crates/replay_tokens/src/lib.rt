// The language of stored cases: the tokens and lists of a line, and the answer's.
#![tactic(auto)]

pub mod lent;
pub mod list;
pub mod print;
pub mod verdict;
pub mod word;
