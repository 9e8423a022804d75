// What the calls of the factor and of the solve with it leave in the caller's lists: Cholesky's factor, entry by entry, and the substitutions' x.
// Statements are in specs/, the theorems are proofs/Whole.antt; there is no code.
#![tactic(auto)]
