// That every public call's contract admits one outcome, and not none. The statement is specs/Calls.antt, the theorem is proofs/Whole.antt; there is no code.
#![tactic(auto)]
