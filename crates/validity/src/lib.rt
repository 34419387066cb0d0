// What a valid tableau is; no code.
#![tactic(auto)]
