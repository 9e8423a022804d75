// A matrix's values once a row is pinned, and once the marked rows are.
#![tactic(auto)]

pub mod marked;
pub mod pinned;
