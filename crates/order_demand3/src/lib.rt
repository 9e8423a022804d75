// Demand 3: what the order and its envelope are to a reader; and what the order's keys, sorting, searches, picks and starts mean. Statements are in specs/; the
// theorems are `demand_3` in proofs/Whole.antt, `untied` in Keys.antt, `sorts` in Sorted.antt, `picks` in Picks.antt and `starts_chosen` in Starts.antt.
// There is no code.
#![tactic(auto)]
