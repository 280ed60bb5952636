// The lines that a task file may do without: the 05 line and the 06 line, where the set has them, and the 07 lines, one for each interrupt.
// Definitions and laws; the code stands in optionallines_code and put_interrupts.
#![tactic(auto)]
