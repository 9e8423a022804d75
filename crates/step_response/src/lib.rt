// The response to a constraint's entries over lent slices, soft_fem_system_response.rs's
// response_into (rules, module 6). Its door lends the tally and stands in `step_doors`.
#![tactic(auto)]

use gradient_definition::Outcome;

pub mod front;
pub mod inner;
mod refuse;

// The gain, and how the step solve that was asked for ended. `Nothing`: no entry is left, none was asked for, and the gain is +0.0.
// Three answers of one call, each with numbers of its own over C: an Option would leave the other two in an enum of their own.
#[derive(Clone, Copy)]
pub enum Responded {
    Nothing,
    Direct { gain: f32 },
    Iterated { gain: f32, how: Outcome },
}
