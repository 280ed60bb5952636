// No code of its own: what is promised of the three functions for C and Rust beside their contracts.
#![tactic(auto)]
