// A connection of a gateway beside the others: definitions and theorems, no code.
#![tactic(auto)]
