// The text of a plan: one 11 line, then 12 by server, 13 in file order, 14 by processor, one behind the other.
// Definitions and laws; the code stands in plantext_code.
#![tactic(auto)]
