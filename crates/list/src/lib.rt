// Definitions only: lists by the numbers of their elements.

#![tactic(auto)]
