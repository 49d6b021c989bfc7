// Two gateways that hold one common CID, over a list of calls: definitions and theorems, no code.
#![tactic(auto)]
