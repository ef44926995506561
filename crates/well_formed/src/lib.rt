// What is known of the tables of a body that was read: definitions and theorems, no code.
#![tactic(auto)]
