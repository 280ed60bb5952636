// The loads of one server: the figures of its members, charged.
// Definitions and laws; the code stands in loads_code.
#![tactic(auto)]
