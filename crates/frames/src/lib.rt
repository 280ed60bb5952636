// Frames: the one table of kinds and widths.
// Types, definitions and laws; the code stands in frames_code.
#![tactic(auto)]

pub mod table;
