// Whether a server takes a task, and whether the task passes alone.
// Definitions and laws; the code stands in passes_whole and taking_code.
#![tactic(auto)]
