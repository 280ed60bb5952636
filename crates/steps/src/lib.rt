// The last length up to a bound where what is asked steps.
// Definitions and laws; the code stands in last_of_greatest and steps_code.
#![tactic(auto)]
