// Demand 3 and the verdict for whole books; no code.
#![tactic(auto)]
