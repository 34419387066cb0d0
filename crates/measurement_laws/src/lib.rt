// What a measurement means; no code.
#![tactic(auto)]
