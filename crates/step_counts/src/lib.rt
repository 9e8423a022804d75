// What a step solve and a response are counted as in the tally (rules, module 7).
#![tactic(auto)]

pub mod asked;
