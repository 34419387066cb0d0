// What a mirror undoes, and what it carries on; no code.
#![tactic(auto)]
