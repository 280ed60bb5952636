// The question who runs on a processor at a tick, about a set and its plan.
// What is answered stands in whoruns/specs/WhoRuns.antt.
#![tactic(auto)]

ghost use Rattle.std.specs.Prelude.{◌≡◌};
ghost use Rattle.whoruns.specs.WhoRuns.{who_runs};

use plan::plan::Plan;
use plancheck_code::makes_plan;
use refusals::Refusal;
use ring::clock::Tick;
use tasks::set::TaskSet;
use who_made::{refused_who, who_made};
use whoruns::WhoAnswer;

pub fn who(set: TaskSet, plan: Plan, processor: u64, tick: Tick) -> WhoAnswer
    ensures { result ≡ who_runs set plan processor tick }
{
    if makes_plan(set, plan) {
        who_made(set, plan, processor, tick)
    } else {
        refused_who(Refusal::Ask)
    }
}
