// A pattern from pairs, soft_fem_sparse.rs's from_pairs: the refusals and the work. The doors stand in `matrix_doors`.
#![tactic(auto)]

pub mod inner;
pub mod refuse;
