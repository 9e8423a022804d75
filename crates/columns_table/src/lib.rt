// The table of columns (rules, module 6): for each particle the number of its column, or UNLOADED. Its test, its clearing and the loading of a particle,
// soft_fem_system_response.rs's clear_columns and load_particle. The doors stand in `columns_doors`.
#![tactic(auto)]

pub mod refuse;
pub mod table;
