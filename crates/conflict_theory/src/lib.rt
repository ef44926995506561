// Minimal conflicts among the equations of a walk: definitions and theorems, no code.
#![tactic(auto)]
