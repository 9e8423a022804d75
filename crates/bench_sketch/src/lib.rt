// From a text to the lists that the picture program draws. All of it asks for room, so there is no door here.
#![tactic(auto)]

pub mod inner;
