// Whether no length fails, over a demand that gains where interrupts can be held off. It rises but for the end of the gain, so the searches go
// over the lengths before the gain, over those that gain and over those past them, each with a demand that never falls.
#![tactic(auto)]

ghost use Rattle.std.specs.Prelude.{◌≡◌, eqb};
ghost use Rattle.demand.specs.Load.{loads_of};
ghost use Rattle.interrupting.specs.Interrupts.{asked};
ghost use Rattle.interrupting.specs.Interrupted.{Interrupted};
ghost use Rattle.search.specs.Search.{Searched, first_up_to, short};
ghost use Rattle.masking.specs.Masking.{Gains, gaining};

use last_short::last_short;
use masking::Gain;

// Whether no length up to hi is short. The smallest deadline is looked at first: too large an extra mostly shows where the least is
// supplied. A length that is short without the extra is short with it.
pub fn none_fails(loads: &[u64], n: usize, gain: Gain, slot: u64, gap: u64, hi: u64) -> bool
    requires interrupted { Interrupted loads.now n }
    requires searched { Searched slot gap 0 hi }
    requires gains { Gains gain (loads_of loads.now n) hi }
    ensures { result ≡ eqb (first_up_to (short (gaining gain (asked loads.now n)) slot gap 0) hi) 0 }
{
    let extra = gain.extra;
    let from = gain.from;
    let until = gain.until;
    let gains = gain.gains();
    if gains {
        let w = interrupting_code::asked_at(loads, n, from) + extra;
        if demand_code::supply_at(slot, gap, from) < w {
            return false;
        }
    }
    let last = last_short(loads, n, slot, gap, 0, hi);
    if last != 0 {
        return false;
    }
    if !gains {
        return true;
    }
    let gained = until - 1;
    last_short(loads, n, slot, gap, extra, gained) < from
}
