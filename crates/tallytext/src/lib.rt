// The text of a sweep's report, into a lent buffer: the 40 line, then a 41 line for each number told.
// Definitions and laws; the code stands in tallytext_code.
#![tactic(auto)]
