// The starred cases of the specification, proved from the definitions; no code.
#![tactic(auto)]
