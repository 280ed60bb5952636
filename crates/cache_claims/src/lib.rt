// What is claimed of cache costs by task. No code.
#![tactic(auto)]
