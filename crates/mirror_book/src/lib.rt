// The mirror of a book: operations reversed, each turned into its inverse; no code.
#![tactic(auto)]
