// A tableau that names itself: d and n in its first two bytes, then the rows; no code.
#![tactic(auto)]
