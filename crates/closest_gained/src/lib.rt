// What a length has to spare, and the closest from the first length that gains on. What they mean stands in slack/specs/Slack.antt.
#![tactic(auto)]

ghost use Rattle.std.specs.Prelude.{true, ◌≡◌, ◌≤◌};
ghost use Rattle.demand.specs.Load.{loads_of};
ghost use Rattle.demand.specs.Supply.{supply_past};
ghost use Rattle.interrupting.specs.Interrupts.{asked};
ghost use Rattle.interrupting.specs.Interrupted.{Interrupted};
ghost use Rattle.search.specs.Search.{Searched, NoneIn, short};
ghost use Rattle.steps.specs.Stepping.{steps};
ghost use Rattle.slack.specs.Least.{least_from};
ghost use Rattle.slack.specs.Slack.{slack_past};
ghost use Rattle.masking.specs.Masking.{Gains, gaining, gains_some};

use masking::Gain;
use slack_code::closest;

// The ticks to spare at a length, without the gain.
pub fn spare(loads: &[u64], n: usize, slot: u64, gap: u64, t: u64) -> u64
    requires interrupted { Interrupted loads.now n }
    requires searched { Searched slot gap 0 t }
    requires t_bound { asked loads.now n t ≤ supply_past slot gap t }
    ensures { result ≡ slack_past (asked loads.now n) slot gap t }
{
    let supply = demand_code::supply_at(slot, gap, t);
    supply - interrupting_code::asked_at(loads, n, t)
}

// The closest from the first length that gains on: of those that gain, and of those past them.
pub fn closest_gained(loads: &[u64], n: usize, gain: Gain, slot: u64, gap: u64, hi: u64) -> u64
    requires interrupted { Interrupted loads.now n }
    requires searched { Searched slot gap 0 hi }
    requires gains { Gains gain (loads_of loads.now n) hi × (gains_some gain ≡ true) }
    requires none_in { NoneIn (short (gaining gain (asked loads.now n)) slot gap 0) 0 hi }
    ensures { result ≡ least_from (steps (gaining gain (asked loads.now n))) (slack_past (gaining gain (asked loads.now n)) slot gap) gain.from hi }
{
    let extra = gain.extra;
    let from = gain.from;
    let until = gain.until;
    let gained = until - 1;
    let near = closest(loads, n, slot, gap, from, gained);
    let far = closest(loads, n, slot, gap, until, hi);
    if spare(loads, n, slot, gap, far) + extra < spare(loads, n, slot, gap, near) {
        return far;
    }
    near
}
