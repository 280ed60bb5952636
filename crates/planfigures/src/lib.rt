// The figures of a plan's lines, one line behind the other, as the writer of lines takes them.
// Definitions and laws; the code stands in planfigures_code and server_values.
#![tactic(auto)]
