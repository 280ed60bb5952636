// What follows from the table of frames: the widths and starts of fields, the lengths of lines, and which values fit.
// Definitions and laws; the code stands in framesizes_code and overflows.
#![tactic(auto)]
