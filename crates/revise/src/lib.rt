// Definitions only: a list of bars with revisions as lines, its entries, which of them are chosen, and the book of these.

#![tactic(auto)]
