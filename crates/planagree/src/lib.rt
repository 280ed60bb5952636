// Whether two plans agree in all that is used.
// Definitions and laws; the code stands in planagree_code.
#![tactic(auto)]
