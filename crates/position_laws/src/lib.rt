// Theorems only: what holds of the plain machine: one record a bar, what a bar adds, the states that are reached, and that whole stops give
// the books that they gave.

#![tactic(auto)]
