// The largest length up to a bound at which demand, with an extra, exceeds supply.
// What it means stands in search/specs/Search.antt.
#![tactic(auto)]

ghost use Rattle.std.specs.Prelude.{◌≡◌};
ghost use Rattle.interrupting.specs.Interrupts.{asked};
ghost use Rattle.interrupting.specs.Interrupted.{Interrupted};
ghost use Rattle.search.specs.Search.{Searched, last_up_to, short};

// From hi down. Where the demand w at t is covered, so is every length up to t whose supply reaches w: the search goes on at
// the last length whose supply is w - 1. Either that length is short, or its demand is below w, so that a step lies between
// the two. With no extra there are thus never more turns than steps up to hi, plus one.
pub fn last_short(loads: &[u64], n: usize, slot: u64, gap: u64, extra: u64, hi: u64) -> u64
    requires interrupted { Interrupted loads.now n }
    requires searched { Searched slot gap extra hi }
    ensures { result ≡ last_up_to (short (asked loads.now n) slot gap extra) hi }
{
    let mut t = hi;
    let mut supply = demand_code::supply_at(slot, gap, hi);
    while 0 < t {
        let w = interrupting_code::asked_at(loads, n, t) + extra;
        if supply < w {
            return t;
        }
        if w == 0 {
            return 0;
        }
        supply = w - 1;
        t = demand_code::last_with(slot, gap, supply);
    }
    0
}
