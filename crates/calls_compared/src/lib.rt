// Earlier, smaller, more: what two answers of `route` have to do with each other. It is all
// definitions (specs/) and theorems (proofs/) over the promises of the calls.

#![tactic(auto)]
