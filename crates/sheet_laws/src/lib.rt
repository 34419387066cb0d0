// The sheet of weights tells the frame run's shifts; no code.
#![tactic(auto)]
