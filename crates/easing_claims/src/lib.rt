// What is claimed of two accepted task files, the servers of one eased to those of the other. No code.
#![tactic(auto)]
