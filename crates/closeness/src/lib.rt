// How close it is where the demand gains: the closest of the lengths before the gain, of those that gain, and of those past them, whichever is closer.
// Definitions and laws; the code stands in closeness_code and closest_gained.
#![tactic(auto)]
