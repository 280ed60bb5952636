// No code of its own: the bytes of quoted text, in which lines and examples are written.
#![tactic(auto)]
