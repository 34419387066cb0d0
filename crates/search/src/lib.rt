// Checks in order, and the first failure; no code.
#![tactic(auto)]
