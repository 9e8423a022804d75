// The conjugate gradient's preconditioner, the inverses of the diagonal blocks (rules, module 5). `gradient_definition` has its definition.
#![tactic(auto)]

pub mod inner;
