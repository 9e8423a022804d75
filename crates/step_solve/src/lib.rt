// The step's factor and the step solve over lent slices, soft_fem_system_response.rs (rules, module 6): the answers, the refusals and the work.
// The doors stand in `step_doors`, where a step solve is counted too.
#![tactic(auto)]

use gradient_definition::Outcome;

pub mod front;
pub mod inner;
pub mod refuse;

// Which route a step solve took, and how the iteration ended.
#[derive(Clone, Copy)]
pub enum Stepped {
    Direct,
    Iterated(Outcome),
}

// What the factorization of a step came to. The mark is set for `Direct` only; a failure has its row and pivot.
// Three ends of one call, each with a number over C: a Result of the factor would leave the third beside it.
#[derive(Clone, Copy)]
pub enum Marked {
    Direct,
    Failed { row: usize, pivot: f32 },
    Iterative,
}
