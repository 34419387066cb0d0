// Errors carried to the end are errors applied where they stand, and what the verdict says of them; no code.
#![tactic(auto)]
