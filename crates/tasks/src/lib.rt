// The task set with its limits: types, definitions and laws. The values of its lines' fields stand in taskvalues.
#![tactic(auto)]

pub mod set;
