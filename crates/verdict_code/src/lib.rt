// Does this server pass with this reserve: yes or no, for placement and sizing. Interrupts can be held off for `masked` ticks.
// What it means stands in verdict/specs/Verdict.antt. Lengths up to the horizon are looked at.
#![tactic(auto)]

ghost use Rattle.std.specs.Prelude.{◌≡◌};
ghost use Rattle.demand.specs.Load.{loads_of};
ghost use Rattle.demand.specs.Supply.{Allowed};
ghost use Rattle.interrupting.specs.Interrupts.{asked};
ghost use Rattle.interrupting.specs.Interrupted.{Interrupted};
ghost use Rattle.masking.specs.Masking.{Gains, Maskable, gaining, gain_of};
ghost use Rattle.verdict.specs.Verdict.{Testable, passing};

use masking::Gain;
use masking_code::gain_of;
use none_fails::none_fails;

// Whether the loads pass with a gain that is theirs.
pub fn passes_gaining(
    loads: &[u64],
    n: usize,
    gain: Gain,
    slot: u64,
    loss: u64,
    reserve: u64,
    horizon: u64,
) -> bool
    requires interrupted { Interrupted loads.now n }
    requires testable { Testable horizon slot loss }
    requires allowed { Allowed slot loss reserve }
    requires gains { Gains gain (loads_of loads.now n) horizon }
    ensures { result ≡ passing (gaining gain (asked loads.now n)) horizon slot loss reserve }
{
    let gap = demand_code::gap_of(slot, loss, reserve);
    none_fails(loads, n, gain, slot, gap, horizon)
}

// Whether they pass, with the gain reckoned here.
pub fn passes(
    loads: &[u64],
    n: usize,
    masked: u64,
    slot: u64,
    loss: u64,
    reserve: u64,
    horizon: u64,
) -> bool
    requires interrupted { Interrupted loads.now n }
    requires testable { Testable horizon slot loss }
    requires allowed { Allowed slot loss reserve }
    requires maskable { Maskable masked (loads_of loads.now n) horizon }
    ensures { result ≡ passing (gaining (gain_of masked (loads_of loads.now n)) (asked loads.now n)) horizon slot loss reserve }
{
    let own = gain_of(loads, n, masked);
    passes_gaining(loads, n, own, slot, loss, reserve, horizon)
}
