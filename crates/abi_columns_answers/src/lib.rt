// The answers of the column calls as the places that a C caller lends, beside crates `abi_answers` and `abi_step_answers`.
#![tactic(auto)]

pub mod block;
pub mod combined;
pub mod computed;
pub mod loaded;
