// Row 13 of the refusals over figures and interrupts.
// Definitions and laws; the code stands in alonerow_code.
#![tactic(auto)]
