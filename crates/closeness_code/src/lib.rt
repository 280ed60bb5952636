// How close it is where the demand gains: the closest of the lengths before the gain, of those that gain, and of those past them, whichever
// is closer.
#![tactic(auto)]

ghost use Rattle.std.specs.Prelude.{◌≡◌};
ghost use Rattle.demand.specs.Load.{loads_of};
ghost use Rattle.demand.specs.Demand.{demand};
ghost use Rattle.interrupting.specs.Interrupts.{asked};
ghost use Rattle.interrupting.specs.Interrupted.{Interrupted};
ghost use Rattle.search.specs.Search.{Searched, NoneIn, short};
ghost use Rattle.steps.specs.Stepping.{steps};
ghost use Rattle.slack.specs.Least.{least_up_to};
ghost use Rattle.slack.specs.Slack.{slack_past};
ghost use Rattle.masking.specs.Masking.{Gains, gaining};
ghost use Rattle.closeness.specs.Begins.{Begins, sooner_of};

use closest_gained::{closest_gained, spare};
use masking::Gain;
use slack_code::closest;

// The smaller of a first length, where there is one, and another length.
fn sooner(first: u64, d: u64) -> u64
    ensures { result ≡ sooner_of first d }
{
    if first == 0 {
        return d;
    }
    let earlier = d < first;
    if earlier {
        return d;
    }
    first
}

// The first length at which loads or interrupts ask for something, from that of the loads.
fn first_asked(loads: &[u64], n: usize, own: u64) -> u64
    requires interrupted { Interrupted loads.now n }
    requires begins { Begins (demand (loads_of loads.now n)) own }
    ensures { Begins (asked loads.now n) result }
{
    let from = 3 * n;
    let count = (loads.len() - from) / 4;
    let mut first = own;
    for i in 0..count {
        let at = from + 4 * i;
        first = sooner(first, loads[at + 2]);
    }
    first
}

// The smallest length with the smallest slack, of those up to hi where the demand steps; 0 where it never does.
pub fn closest_of(loads: &[u64], n: usize, gain: Gain, slot: u64, gap: u64, hi: u64) -> u64
    requires interrupted { Interrupted loads.now n }
    requires searched { Searched slot gap 0 hi }
    requires gains { Gains gain (loads_of loads.now n) hi }
    requires none_in { NoneIn (short (gaining gain (asked loads.now n)) slot gap 0) 0 hi }
    ensures { result ≡ least_up_to (steps (gaining gain (asked loads.now n))) (slack_past (gaining gain (asked loads.now n)) slot gap) hi }
{
    let from = gain.from;
    let first = first_asked(loads, n, from);
    if first == 0 {
        return 0;
    }
    if hi < first {
        return 0;
    }
    if !gain.gains() {
        return closest(loads, n, slot, gap, first, hi);
    }
    let late = closest_gained(loads, n, gain, slot, gap, hi);
    let none_before = from <= first;
    if none_before {
        return late;
    }
    let early = closest(loads, n, slot, gap, first, from - 1);
    let room = spare(loads, n, slot, gap, early) + gain.at(late);
    if spare(loads, n, slot, gap, late) < room {
        return late;
    }
    early
}
