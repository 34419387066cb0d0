// What the sheet of a book says of the runs of all books over its circuit; no code.
#![tactic(auto)]
