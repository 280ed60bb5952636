// Masked interrupts: where a server's demand gains, and by how much. What it means stands in masking/specs/Masking.antt.
// The loads stand in one slice of numbers, three for each: cost, deadline, period.
#![tactic(auto)]

ghost use Rattle.std.specs.Prelude.{◌≡◌};
ghost use Rattle.demand.specs.Load.{Loaded, loads_of};
ghost use Rattle.masking.specs.Masking.{gain_of};

use masking::Gain;

// Where the first n loads gain: from their smallest deadline up to, not including, their largest.
pub fn gain_of(loads: &[u64], n: usize, masked: u64) -> Gain
    requires { Loaded loads.now n }
    ensures { result ≡ gain_of masked (loads_of loads.now n) }
{
    let mut from: u64 = 0;
    let mut until: u64 = 0;
    for i in 0..n {
        let d = loads[3 * i + 1];
        let begins = i == 0;
        from = if begins { d } else { from.min(d) };
        until = until.max(d);
    }
    Gain {
        extra: masked,
        from,
        until,
    }
}
