// A direct run that halts and goes on, over decoded lists; no code.
#![tactic(auto)]
