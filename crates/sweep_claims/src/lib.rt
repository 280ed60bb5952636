// No code of its own: what is promised of a sweep.
#![tactic(auto)]
