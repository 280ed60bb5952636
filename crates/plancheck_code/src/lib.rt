// The check behind row 11: the planner makes this plan of this set. Unused room is not compared.
// What it means stands in plancheck/specs/Makes.antt.
#![tactic(auto)]

ghost use Rattle.std.specs.Prelude.{◌≡◌};
ghost use Rattle.plancheck.specs.Makes.{makes};

use plan::plan::Plan;
use planagree_code::agree;
use planner_code::make;
use tasks::set::TaskSet;

pub fn makes_plan(set: TaskSet, plan: Plan) -> bool
    ensures { result ≡ makes set plan }
{
    let made = make(set);
    let outcome = made.outcome;
    let Ok(()) = outcome else {
        return false;
    };
    agree(set.count, plan, made.plan)
}
