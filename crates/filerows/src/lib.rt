// What the rows say of a file that was read, and what is made of its set: a file's set and plan, step by step.
// Definitions and laws; the code stands in taskplan_code.
#![tactic(auto)]
