// One server of a plan that is checked already: its record, and does it pass with a reserve.
// Definitions and laws; the code stands in planserver_code and record_of.
#![tactic(auto)]
