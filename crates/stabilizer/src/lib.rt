// The algebra of stabilizer sets; no code.
#![tactic(auto)]
