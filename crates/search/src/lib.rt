// The searches over lengths: the largest and the smallest length up to a bound at which demand, with an extra, exceeds supply.
// Definitions and laws; the code stands in first_short and last_short.
#![tactic(auto)]
