// A direct run of a whole book that halts, is looked at and goes on: theorems, no code.
#![tactic(auto)]
