// Laws for proofs by hand: no code.

#![tactic(auto)]
