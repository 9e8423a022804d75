// The answers of the public calls as the numbers that a C caller is told.
#![tactic(auto)]

pub use answer::number;

mod answer;
pub mod ended;
pub mod factored;
