// How close it is: the length with the smallest slack, of those where the demand of loads steps.
// What it means stands in slack/specs/Least.antt and slack/specs/Slack.antt.
#![tactic(auto)]

ghost use Rattle.std.specs.Prelude.{◌≡◌, true, pred, ◌≤◌};
ghost use Rattle.interrupting.specs.Interrupts.{asked};
ghost use Rattle.interrupting.specs.Interrupted.{Interrupted};
ghost use Rattle.search.specs.Search.{Searched, NoneIn, short};
ghost use Rattle.steps.specs.Stepping.{steps};
ghost use Rattle.slack.specs.Least.{least_from};
ghost use Rattle.slack.specs.Slack.{slack_past};

use steps_code::last_step;

// From hi down to `from`, which is a step, with the smallest slack found so far; that of `from` to begin with, since the slack is small
// where lengths are short. Where the demand at t is w, no length up to t whose supply exceeds w + least is closer: the search goes on
// at the last length whose supply is w + least. Where the supply at t does not exceed that, the last step up to t has the same demand
// and no more supply: it is the closest so far, and before it the demand is below w, so the search goes on where the supply is one less.
// Of two turns that follow each other one stands past another step, so there are at most two for each step, and one more.
pub fn closest(loads: &[u64], n: usize, slot: u64, gap: u64, from: u64, hi: u64) -> u64
    requires interrupted { Interrupted loads.now n }
    requires searched { Searched slot gap 0 hi }
    requires from_value { (steps (asked loads.now n) from ≡ true) × (from ≤ hi) }
    requires none_in { NoneIn (short (asked loads.now n) slot gap 0) (pred from) hi }
    ensures { result ≡ least_from (steps (asked loads.now n)) (slack_past (asked loads.now n) slot gap) from hi }
{
    let mut best = from;
    let spare = demand_code::supply_at(slot, gap, best);
    let mut least = spare - interrupting_code::asked_at(loads, n, best);
    let mut t = hi;
    let mut supply = demand_code::supply_at(slot, gap, hi);
    let mut w = interrupting_code::asked_at(loads, n, hi);
    while from <= t {
        if w + least < supply {
            supply = w + least;
        } else {
            best = last_step(loads, n, t);
            let reached = demand_code::supply_at(slot, gap, best);
            least = reached - w;
            supply = reached - 1;
        }
        t = demand_code::last_with(slot, gap, supply);
        w = interrupting_code::asked_at(loads, n, t);
    }
    best
}
