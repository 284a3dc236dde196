// Theorems only: a book from before lots is one still, and means what it meant, each position with one lot.

#![tactic(auto)]
