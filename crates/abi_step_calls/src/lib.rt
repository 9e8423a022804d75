// The C ABI over the step's calls, beside crate `abi_calls`. Each answers the refusal's number, or 0; the lists are left as the call's own promise says.
#![tactic(auto)]

mod marking;
mod responding;
mod stepping;
