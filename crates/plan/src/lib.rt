// The plan as a value: its servers, the placement of the tasks, the first reserve of each processor.
// Types, definitions and laws; the code stands in plan_code.
#![tactic(auto)]

pub mod plan; // plan.rt: the plan
pub mod server; // server.rt: one server of a plan
