// Every theorem that specs/ states, given as a term of that very type: proofs/Promises.antt; no code.
#![tactic(auto)]
