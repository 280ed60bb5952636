// The planner: the plan that document 01 describes, or the first refusal and the all-zero plan.
// Types, definitions and laws; the code stands in planned and planner_code.
#![tactic(auto)]

use plan::plan::Plan;
use refusals::Outcome;

// The plan stands first: what is compiled then holds it once (docs/SPEED.md).
#[derive(Clone, Copy)]
pub struct PlanAnswer {
    pub plan: Plan,
    pub outcome: Outcome,
}
