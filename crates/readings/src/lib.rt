// Does this server pass with this reserve: the whole answer for the question, yes or no with a reading. Interrupts can be held off for
// `masked` ticks. Lengths up to the horizon are looked at.
#![tactic(auto)]

ghost use Rattle.std.specs.Prelude.{◌≡◌, ◌<◌, ◌≤◌, ◌^◌};
ghost use Rattle.demand.specs.Load.{loads_of};
ghost use Rattle.demand.specs.Supply.{Allowed};
ghost use Rattle.interrupting.specs.Interrupts.{asked};
ghost use Rattle.interrupting.specs.Interrupted.{Interrupted};
ghost use Rattle.masking.specs.Masking.{Maskable, gaining, gain_of};
ghost use Rattle.verdict.specs.Verdict.{Testable, reading_past, verdict_of};

use closeness_code::closest_of;
use first_fails::first_fails;
use masking::Gain;
use masking_code::gain_of;
use verdict::answer::{Reading, Verdict};

// A length with the demand and the supply there.
fn reading(loads: &[u64], n: usize, gain: Gain, slot: u64, gap: u64, length: u64) -> Reading
    requires interrupted { Interrupted loads.now n × (length < 2 ^ 36) }
    requires extra_bound { gain.extra < 2 ^ 36 }
    requires le_slot { (1 ≤ slot) × (gap ≤ slot) }
    ensures { result ≡ reading_past (gaining gain (asked loads.now n)) slot gap length }
{
    let asked = interrupting_code::asked_at(loads, n, length) + gain.at(length);
    let supply = demand_code::supply_at(slot, gap, length);
    Reading {
        length,
        demand: asked,
        supply,
    }
}

pub fn verdict(
    loads: &[u64],
    n: usize,
    masked: u64,
    slot: u64,
    loss: u64,
    reserve: u64,
    horizon: u64,
) -> Verdict
    requires interrupted { Interrupted loads.now n }
    requires testable { Testable horizon slot loss }
    requires allowed { Allowed slot loss reserve }
    requires maskable { Maskable masked (loads_of loads.now n) horizon }
    ensures { result ≡ verdict_of (gaining (gain_of masked (loads_of loads.now n)) (asked loads.now n)) horizon slot loss reserve }
{
    let gap = demand_code::gap_of(slot, loss, reserve);
    let gain = gain_of(loads, n, masked);
    let failing = first_fails(loads, n, gain, slot, gap, horizon);
    if failing == 0 {
        let close = closest_of(loads, n, gain, slot, gap, horizon);
        return Verdict::Yes(reading(loads, n, gain, slot, gap, close));
    }
    Verdict::No(reading(loads, n, gain, slot, gap, failing))
}
