// One row of the envelope's factor: its entries left of the diagonal, and its pivot.
#![tactic(auto)]

pub mod row;
