// What a saved tableau's layout keeps, and what its tests test exactly; no code.
#![tactic(auto)]
