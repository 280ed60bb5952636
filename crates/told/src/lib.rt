// An answer told in numbers: its status, 0 or a refusal as one number; the numbers of a verdict; numbers into lent memory.
// Definitions and laws; the code stands in tell and told_code.
#![tactic(auto)]
