// Vectors of all particles, and their multiples added up, over lent lists of two floats for each particle.
#![tactic(auto)]

pub mod inner;
pub mod multiples;
