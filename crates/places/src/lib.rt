// The places of one server's tasks, as numbers of one byte.
// Definitions and laws; the code stands in places_code.
#![tactic(auto)]
