// The starred readings (RULES.md § 11), together: the statement is specs/Starred.antt, computed in proofs/Whole.antt; there is no code.
#![tactic(auto)]
