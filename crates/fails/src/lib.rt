// The search over a demand that gains where interrupts can be held off.
// Definitions and laws; the code stands in first_fails and none_fails.
#![tactic(auto)]
