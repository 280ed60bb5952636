// The question does a server pass with a reserve, about a set and its plan.
// What is answered stands in doespass/specs/DoesPass.antt.
#![tactic(auto)]

ghost use Rattle.std.specs.Prelude.{◌≡◌};
ghost use Rattle.doespass.specs.DoesPass.{does_pass};

use doespass::PassAnswer;
use pass_made::{pass_made, refused_pass};
use plan::plan::Plan;
use plancheck_code::makes_plan;
use refusals::Refusal;
use tasks::set::TaskSet;

pub fn pass(set: TaskSet, plan: Plan, server: u64, reserve: u64) -> PassAnswer
    ensures { result ≡ does_pass set plan server reserve }
{
    if makes_plan(set, plan) {
        pass_made(set, plan, server, reserve)
    } else {
        refused_pass(Refusal::Ask)
    }
}
