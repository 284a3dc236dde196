// Theorems only: demand 3 of the exported calls: a run of them, by their contracts alone, is a list of calls of `history`.

#![tactic(auto)]
