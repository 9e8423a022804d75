// One turn of the conjugate gradient (rules, module 5). `gradient_definition` has its definition.
#![tactic(auto)]

pub mod inner;
