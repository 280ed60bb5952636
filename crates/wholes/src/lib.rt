// Whole numbers: the common measure, the least common multiple within a limit, and a quotient rounded up.
// Definitions and laws; the code stands in least_multiple and wholes_code.
#![tactic(auto)]
