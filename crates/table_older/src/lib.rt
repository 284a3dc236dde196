// Theorems only: a table from before scores up to 1,000, from before lots or from before the evening is one still, and means what it meant.

#![tactic(auto)]
