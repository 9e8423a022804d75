// A particle's own block from the columns (rules, module 6), soft_fem_system_response.rs's particle_block_from_columns: the refusals and the work.
// The door stands in `columns_doors`.
#![tactic(auto)]

pub mod block;
pub mod refuse;
