// The conjugate gradient in the textbooks' shape, sequences over the count of turns, and that the definition and the public call are its trace.
// Statements are in specs/, the theorems are proofs/Whole.antt; there is no code.
#![tactic(auto)]
