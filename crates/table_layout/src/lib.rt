// Theorems only: the bytes that compiling writes for a table's parts mean them.

#![tactic(auto)]
