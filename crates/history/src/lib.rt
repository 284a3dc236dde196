// Theorems only: demand 3, every list of feeds, saves, restores and requests on one book.

#![tactic(auto)]
