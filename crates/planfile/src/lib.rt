// From the bytes of a task file to the bytes of its answer, and the writer of a plan.
// Definitions and laws; the code stands in planfile_code and write_plan.
#![tactic(auto)]
