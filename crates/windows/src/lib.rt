// No code of its own: the usable ticks of a reserve in any window, and that the finite test and the rota say the same.
#![tactic(auto)]
