// A task file taken to its set and its plan, or to its refusal: what the tool prints and what both questions are asked of.
// Types, definitions and laws; the code stands in taskplan_code.
#![tactic(auto)]

use plan::plan::Plan;
use refusals::Outcome;
use tasks::set::TaskSet;

#[derive(Clone, Copy)]
pub struct FileAnswer {
    pub outcome: Outcome,
    pub set: TaskSet,
    pub plan: Plan,
}
