// What the tables of a walk hold at most: definitions and theorems, no code.
#![tactic(auto)]
