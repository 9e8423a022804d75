// From a text to its pattern and its plan, for the printed lines and for the picture. All of it asks for room, so there is no door here.
#![tactic(auto)]

pub mod inner;
