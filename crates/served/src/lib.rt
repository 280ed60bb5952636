// The loads of the server at some places among a file's figures, and its own horizon.
// Definitions and laws; the code stands in served_code.
#![tactic(auto)]
