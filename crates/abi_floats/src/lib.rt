// Floats handed out over the C ABI.
#![tactic(auto)]

pub mod lent;
