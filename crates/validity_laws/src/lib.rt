// What keeps a tableau valid; no code.
#![tactic(auto)]
