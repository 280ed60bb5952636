// The figures of a task set.
// Definitions and laws; the code stands in setfigures_code.
#![tactic(auto)]
