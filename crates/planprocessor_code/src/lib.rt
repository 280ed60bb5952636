// One processor of a plan: is it there, and who runs on it at a tick.
// What they mean stands in planprocessor/specs/Standing.antt.
#![tactic(auto)]

ghost use Rattle.std.specs.Prelude.{◌≡◌, ◌+◌, ◌≤◌};
ghost use Rattle.tasks.specs.Set.{most_tasks};
ghost use Rattle.ring.specs.Who.{who_of};
ghost use Rattle.plan.specs.Plan.{reserves_in};
ghost use Rattle.planprocessor.specs.Standing.{is_processor, Standing};

use plan::plan::Plan;
use plan_code::reserves;
use ring::clock::Tick;
use ring::cover::Stand;

// The processors that are there are 1 to r + whole.
pub fn is_processor(plan: Plan, processor: u64) -> bool
    requires { plan.ring + plan.whole ≤ most_tasks }
    ensures { result ≡ is_processor plan processor }
{
    let before_first = processor < 1;
    if before_first {
        return false;
    }
    processor <= plan.ring + plan.whole
}

// Who runs, by a plan that is checked already.
pub fn who_stands(plan: Plan, processor: u64, tick: Tick) -> Stand
    requires { Standing plan processor }
    ensures { result ≡ who_of plan.slot (reserves_in plan) processor tick }
{
    let n = plan.servers as usize;
    let slot = plan.slot;
    let row = reserves(plan);
    ring_who::who(&row, n, slot, processor, tick)
}
