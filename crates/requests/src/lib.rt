// The count of a start's requests: definitions and the theorem, no code.
#![tactic(auto)]
