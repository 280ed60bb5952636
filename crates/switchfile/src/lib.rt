// The switch list of a task file, into a lent buffer.
// Definitions and laws; the code stands in switchfile_code.
#![tactic(auto)]
