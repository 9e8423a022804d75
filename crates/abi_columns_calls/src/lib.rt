// The C ABI over the column calls, beside crates `abi_calls` and `abi_step_calls`. Each answers the refusal's number, or 0; the lists are left as the
// call's own promise says.
#![tactic(auto)]

mod combining;
mod computing;
mod loading;
