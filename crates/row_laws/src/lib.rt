// Laws; no code.
#![tactic(auto)]
