// The book that d, n and three bodies make, and what the writer leaves; no code.
#![tactic(auto)]
