// What the columns are, and what a combination from them is: each column the step solve of its axis, one entry the columns times its weights.
// Statements are in specs/, the theorems are proofs/Whole.antt and proofs/Calls.antt; there is no code.
#![tactic(auto)]
