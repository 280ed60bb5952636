// The demand of loads at one length.
// The loads stand in one slice of numbers, three for each: cost, deadline, period.
#![tactic(auto)]

ghost use Rattle.std.specs.Prelude.{◌≡◌, ◌<◌, ◌^◌};
ghost use Rattle.demand.specs.Load.{Loaded, loads_of};
ghost use Rattle.demand.specs.Demand.{demand};

use demand_code::term_at;

// The ticks that the first n loads must have had.
pub fn demand_at(loads: &[u64], n: usize, t: u64) -> u64
    requires { Loaded loads.now n × (t < 2 ^ 36) }
    ensures { result ≡ demand (loads_of loads.now n) t }
{
    let mut sum: u64 = 0;
    for i in 0..n {
        let at = 3 * i;
        sum += term_at(loads[at], loads[at + 1], loads[at + 2], t);
    }
    sum
}
