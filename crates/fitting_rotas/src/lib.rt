// No code of its own: the rota of a set under any fitting placement stands, and the planner's placements fit.
#![tactic(auto)]
