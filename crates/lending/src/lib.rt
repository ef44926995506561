// Laws for the proofs by hand of functions over lent structs: no code.
#![tactic(auto)]
