// What the sheet of weights is: definitions alone.
#![tactic(auto)]
