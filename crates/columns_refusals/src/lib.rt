// What computing the columns is refused by (rules, module 6), before any list is touched.
#![tactic(auto)]

pub mod refuse;
