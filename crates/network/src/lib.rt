// The theory of the best chain through a network of contacts. It is all definitions (specs/) and
// theorems (proofs/): the code that works the best chain out stands in the crates `search_layers` and
// `search_choice`.

#![tactic(auto)]
