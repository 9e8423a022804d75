// For measuring only: see measured.rt.
#![tactic(auto)]

mod columns;
mod measured;
mod solver;
mod steps;
