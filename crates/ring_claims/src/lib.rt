// No code of its own: what is promised of the ring, rules 3 to 5 and who runs, and its proofs.
#![tactic(auto)]
