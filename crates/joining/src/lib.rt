// One step of placing: the server for a task, by each fit.
// Definitions and laws; the code stands in soonest, candidate, rooms and joining_code.
#![tactic(auto)]
