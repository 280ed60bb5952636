// No code of its own: small laws of tests, orders, choices and lists that are the same, which the proofs of several crates cite.
#![tactic(auto)]
