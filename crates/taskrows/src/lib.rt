// Row 5 of the refusals, over a board's figures, and row 6, over those of one task or one interrupt.
// Definitions and laws; the code stands in taskrows_code.
#![tactic(auto)]
