// Definitions only: a bar's signals, when a clause holds, and the event that they choose.

#![tactic(auto)]
