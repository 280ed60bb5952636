// The smallest failing length, over a demand that gains where interrupts can be held off. It rises but for the end of the gain, so the searches
// go over the lengths before the gain, over those that gain and over those past them, each with a demand that never falls.
#![tactic(auto)]

ghost use Rattle.std.specs.Prelude.{◌≡◌};
ghost use Rattle.demand.specs.Load.{loads_of};
ghost use Rattle.interrupting.specs.Interrupts.{asked};
ghost use Rattle.interrupting.specs.Interrupted.{Interrupted};
ghost use Rattle.search.specs.Search.{Searched, first_up_to, short};
ghost use Rattle.masking.specs.Masking.{Gains, gaining};

use first_short::first_short;
use masking::Gain;

// The smallest length up to hi that is short, or 0.
pub fn first_fails(loads: &[u64], n: usize, gain: Gain, slot: u64, gap: u64, hi: u64) -> u64
    requires interrupted { Interrupted loads.now n }
    requires searched { Searched slot gap 0 hi }
    requires gains { Gains gain (loads_of loads.now n) hi }
    ensures { result ≡ first_up_to (short (gaining gain (asked loads.now n)) slot gap 0) hi }
{
    let extra = gain.extra;
    let from = gain.from;
    let until = gain.until;
    if !gain.gains() {
        return first_short(loads, n, slot, gap, 0, 0, hi);
    }
    let before = from - 1;
    let early = first_short(loads, n, slot, gap, 0, 0, before);
    if early != 0 {
        return early;
    }
    let gained = until - 1;
    let near = first_short(loads, n, slot, gap, extra, before, gained);
    let fails_near = near != 0;
    if fails_near {
        return near;
    }
    first_short(loads, n, slot, gap, 0, gained, hi)
}
