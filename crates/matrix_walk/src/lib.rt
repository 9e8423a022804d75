// The walk of a pattern's test: rows and mirrors, with a cursor for each row.
#![tactic(auto)]

pub mod rows;
