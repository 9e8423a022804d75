// The picture of a pattern before and after it is ordered, as a portable bitmap: its header
// and each of its lines. All of it asks for room, so there is no door here.
#![tactic(auto)]

pub mod drawing;
pub mod inner;
mod pixels;
