// Theorems only: every sheet that can be read is within a table's limits.

#![tactic(auto)]
