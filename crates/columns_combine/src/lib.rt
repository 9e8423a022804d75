// A response combined from the columns (rules, module 6), soft_fem_system_response.rs's response_from_columns: the answer, the refusals and the work; and
// one axis of a column, with the room that it needs, for a particle's own block too. The door stands in `columns_doors`.
#![tactic(auto)]

pub mod column;
pub mod combine;
pub mod refuse;

// `NotLoaded`: an entry's particle has no column. `Nothing`: no entry is left, and the gain is +0.0.
// Three answers with numbers of their own in the rules and over C, and no refusal: more than an Option says.
#[derive(Clone, Copy, Debug)]
pub enum Combined {
    NotLoaded,
    Nothing,
    Gain(f32),
}
