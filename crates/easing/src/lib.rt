// What is claimed of a server that is eased. No code.
#![tactic(auto)]
