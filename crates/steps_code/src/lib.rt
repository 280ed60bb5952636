// The last length up to a bound where what is asked steps. What a step is stands in steps/specs/Stepping.antt. A slice has three numbers for
// each load, and behind the loads four for each interrupt, by processor.
#![tactic(auto)]

ghost use Rattle.std.specs.Prelude.{◌≡◌, ◌<◌, ◌^◌};
ghost use Rattle.demand.specs.Load.{Loaded, loads_of};
ghost use Rattle.demand.specs.Demand.{demand};
ghost use Rattle.interrupting.specs.Interrupts.{asked};
ghost use Rattle.interrupting.specs.Interrupted.{Interrupted};
ghost use Rattle.search.specs.Search.{last_up_to};
ghost use Rattle.steps.specs.Stepping.{steps};

use last_of_greatest::{last_due, last_of_greatest};

// The last of the loads' own last deadlines.
fn last_of_loads(loads: &[u64], n: usize, hi: u64) -> u64
    requires { Loaded loads.now n }
    ensures { result ≡ last_up_to (steps (demand (loads_of loads.now n))) hi }
{
    let mut last: u64 = 0;
    for i in 0..n {
        let at = 3 * i;
        last = last.max(last_due(loads[at + 1], loads[at + 2], hi));
    }
    last
}

// The later of the last step of the loads and that of the interrupts.
pub fn last_step(loads: &[u64], n: usize, hi: u64) -> u64
    requires { Interrupted loads.now n × (hi < 2 ^ 36) }
    ensures { result ≡ last_up_to (steps (asked loads.now n)) hi }
{
    let own = last_of_loads(loads, n, hi);
    let theirs = last_of_greatest(loads, n, hi);
    own.max(theirs)
}
