// The size of a server's reserve. What it means stands in specs/Reserve.antt of verdict.
// A larger allowed reserve never turns yes into no, so halving finds the smallest.
#![tactic(auto)]

ghost use Rattle.std.specs.Prelude.{◌≡◌};
ghost use Rattle.demand.specs.Load.{loads_of};
ghost use Rattle.interrupting.specs.Interrupts.{asked};
ghost use Rattle.interrupting.specs.Interrupted.{Interrupted};
ghost use Rattle.masking.specs.Masking.{Maskable, gaining, gain_of};
ghost use Rattle.verdict.specs.Verdict.{Testable};
ghost use Rattle.verdict.specs.Reserve.{smallest_reserve};

use masking_code::gain_of;
use verdict_code::passes_gaining;

// No reserve up to lo is enough; hi is, or it is the whole processor.
pub fn smallest_reserve(
    loads: &[u64],
    n: usize,
    masked: u64,
    slot: u64,
    loss: u64,
    horizon: u64,
) -> u64
    requires interrupted { Interrupted loads.now n }
    requires testable { Testable horizon slot loss }
    requires maskable { Maskable masked (loads_of loads.now n) horizon }
    ensures { result ≡ smallest_reserve (gaining (gain_of masked (loads_of loads.now n)) (asked loads.now n)) horizon slot loss }
{
    let gain = gain_of(loads, n, masked);
    let mut lo = loss;
    let mut hi = slot;
    while lo + 1 < hi {
        let mid = lo + (hi - lo) / 2;
        if passes_gaining(loads, n, gain, slot, loss, mid, horizon) {
            hi = mid;
        } else {
            lo = mid;
        }
    }
    hi
}
