// Who runs on a processor at a tick, about a set and a plan that is checked already; and the refused question.
// What is answered stands in whoruns/specs/WhoRuns.antt.
#![tactic(auto)]

ghost use Rattle.std.specs.Prelude.{◌≡◌, true};
ghost use Rattle.plancheck.specs.Makes.{makes};
ghost use Rattle.whoruns.specs.WhoRuns.{refused_who, who_runs};

use plan::plan::Plan;
use planprocessor_code::{is_processor, who_stands};
use refusals::Refusal;
use ring::clock::Tick;
use tasks::set::TaskSet;
use whoruns::WhoAnswer;

pub fn refused_who(refusal: Refusal) -> WhoAnswer
    ensures { result ≡ refused_who refusal }
{
    WhoAnswer {
        outcome: Err(refusal),
        server: 0,
        left: 0,
    }
}

// Who runs, by a plan that is checked already.
pub fn who_made(set: TaskSet, plan: Plan, processor: u64, tick: Tick) -> WhoAnswer
    requires { makes set plan ≡ true }
    ensures { result ≡ who_runs set plan processor tick }
{
    if !is_processor(plan, processor) {
        return refused_who(Refusal::Ask);
    }
    let stand = who_stands(plan, processor, tick);
    WhoAnswer {
        outcome: Ok(()),
        server: stand.server,
        left: stand.left,
    }
}
