// What became of a name: its file opened, read and planned.
// Definitions and laws; the code stands in sweepfile_code.
#![tactic(auto)]
