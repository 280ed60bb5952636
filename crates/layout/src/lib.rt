// From placed and sized servers to the plan: the record of each server, and the first reserve of each processor.
// Definitions and laws; the code stands in layout_code.
#![tactic(auto)]
