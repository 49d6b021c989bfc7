// Lists of steps on gateways: definitions and laws, no code.
#![tactic(auto)]
