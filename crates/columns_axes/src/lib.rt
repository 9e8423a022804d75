// The solves behind the columns (rules, module 6): particle by particle and axis by axis, each a response with one entry, counted in two records.
#![tactic(auto)]

use step_tally::Tally;

pub mod axis;

// The lent record and the call's own, solve after solve.
#[derive(Clone, Copy)]
pub struct Tallies {
    pub lent: Tally,
    pub own: Tally,
}
