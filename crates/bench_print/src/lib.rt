// Decimal numbers and the bench program's lines, written into a lent buffer. All of it asks for room, so there is no door here.
#![tactic(auto)]

pub mod inner;
