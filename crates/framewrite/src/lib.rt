// A line of a frame, written to a place in a lent buffer from the values of its fields.
// Definitions and laws; the code stands in framewrite_code and put_fields.
#![tactic(auto)]
