// What the routes of a step share (rules, module 6): the tests, of which the plan's are made only
// where it counts, the buffers that a route leaves zeroed, and the iteration from zero.
#![tactic(auto)]

pub mod dense;
pub mod front;
pub mod refuse;
pub mod system;
