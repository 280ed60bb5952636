// One processor of a plan: is it there, and who runs on it at a tick.
// Definitions and laws; the code stands in planprocessor_code.
#![tactic(auto)]
