// Lines of a frame, written one behind the other to a place in a lent buffer from the values of their fields.
// Definitions and laws; the code stands in framelines_code.
#![tactic(auto)]
