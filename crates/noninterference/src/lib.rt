// What error records say changes nothing but what carries them: definitions and theorems, no code.
#![tactic(auto)]
