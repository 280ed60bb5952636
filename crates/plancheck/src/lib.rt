// The check behind row 11: the planner makes this plan of this set.
// Definitions and laws; the code stands in plancheck_code.
#![tactic(auto)]
