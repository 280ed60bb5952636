// Lines of a frame, read from a place in a text.
// Definitions and laws; the code stands in frameread_code and is_line.
#![tactic(auto)]
