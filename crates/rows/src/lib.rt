// Rows 5 to 9 of the refusals over a set, and the horizon that row 9 finds.
// Definitions and laws; the code stands in horizon_within and rows_code.
#![tactic(auto)]
