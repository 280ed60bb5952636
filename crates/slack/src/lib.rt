// How close it is: the length with the smallest slack, of those where the demand of loads steps.
// Definitions and laws; the code stands in slack_code.
#![tactic(auto)]
