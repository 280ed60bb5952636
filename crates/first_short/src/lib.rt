// The smallest length up to a bound at which demand, with an extra, exceeds supply.
// What it means stands in search/specs/Search.antt.
#![tactic(auto)]

ghost use Rattle.std.specs.Prelude.{◌≡◌};
ghost use Rattle.interrupting.specs.Interrupts.{asked};
ghost use Rattle.interrupting.specs.Interrupted.{Interrupted};
ghost use Rattle.search.specs.Search.{Searched, first_after, short};

use last_short::last_short;

// By halving. "Some length above lo, up to x, is short" only turns from no to yes as x grows, and `last_short` answers it. None
// from lo to low is short; top is, being an answer of `last_short`.
pub fn first_short(
    loads: &[u64],
    n: usize,
    slot: u64,
    gap: u64,
    extra: u64,
    lo: u64,
    hi: u64,
) -> u64
    requires interrupted { Interrupted loads.now n }
    requires searched { Searched slot gap extra hi }
    ensures { result ≡ first_after (short (asked loads.now n) slot gap extra) lo hi }
{
    let mut low = lo;
    let mut top = last_short(loads, n, slot, gap, extra, hi);
    let none_short = top <= lo;
    if none_short {
        return 0;
    }
    while low + 1 < top {
        let mid = low + (top - low) / 2;
        let found = last_short(loads, n, slot, gap, extra, mid);
        let none_lower = found <= lo;
        if none_lower {
            low = mid;
        } else {
            top = found;
        }
    }
    top
}
