// The two questions of a task file.
// Definitions and laws; the code stands in askfile_code.
#![tactic(auto)]
