// No code of its own: what is claimed of reading and writing task files, for every text and every set.
#![tactic(auto)]
