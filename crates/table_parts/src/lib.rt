// Theorems only: the parts of a table that are made of a sheet are right, mean it and fit.

#![tactic(auto)]
