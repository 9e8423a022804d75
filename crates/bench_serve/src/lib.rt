// What the bench programs do with a file: its text in, the answer out.
#![tactic(auto)]

pub mod inner;
