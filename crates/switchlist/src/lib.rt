// The switch list of a plan that is handed in with its set: row 11 unless the planner makes it, then row 12, else the exact text.
// Definitions and laws; the code stands in fit_switches and switchlist_code.
#![tactic(auto)]
