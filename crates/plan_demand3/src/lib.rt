// Demand 3 of what the plan's door leaves, and of every pattern that is built from pairs.
// Statements are in specs/, the theorems are proofs/Whole.antt; there is no code.
#![tactic(auto)]
