// Rows 3 and 4 of a task set, with what row 11 is: a set breaks row 3 or 4, or holds what no file's lines can carry.
// Definitions and laws; the code stands in taskask_code.
#![tactic(auto)]
