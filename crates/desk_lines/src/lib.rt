// The lines of an input answered, a buffer at a time, whatever the answer of one line is. It is all
// definitions (specs/) and theorems (proofs/): the loop itself stands in each desk that has one.

#![tactic(auto)]
