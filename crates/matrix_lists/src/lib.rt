// Each row's list of the numbers that the pairs join with it.
#![tactic(auto)]

mod filing;
pub mod lists;
pub mod rows;
mod turning;
