// A text into a lent buffer: stored at its start where it fits, else row 12 and nothing stored.
// Definitions and laws; the code stands in planfit_code.
#![tactic(auto)]
