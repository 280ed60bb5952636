// What a server loses at each entry, and the horizon of its loads and of interrupts with the slot.
// What they mean stands in members/specs/Server.antt. Loads stand in a slice of numbers, three for each, interrupts in one, four for each.
#![tactic(auto)]

ghost use Rattle.std.specs.Prelude.{◌≡◌, ◌<◌, ◌^◌, ◌/◌, length};
ghost use Rattle.wholes.specs.Multiple.{within};
ghost use Rattle.charging.specs.Charging.{entry_loss};
ghost use Rattle.demand.specs.Load.{loads_of};
ghost use Rattle.interrupting.specs.Interrupts.{bounds_of};
ghost use Rattle.verdict.specs.Verdict.{own_horizon};
ghost use Rattle.members.specs.Server.{Timed};

use multiple_of::multiple_of;
use tasks::set::Header;

// The entry loss of a server of this cache cost.
pub fn loss(header: Header, cache: u64) -> u64
    requires { cache < 2 ^ 32 }
    ensures { result ≡ entry_loss header.resd cache }
{
    charging::entry_loss(header.resd as u64, cache)
}

// The least common multiple of the slot and the periods of the first n loads and of interrupts, or none past the limit.
pub fn horizon_of(loads: &[u64], n: usize, interrupts: &[u64], slot: u64, limit: u64) -> Option<u64>
    requires { Timed loads.now n interrupts.now slot }
    ensures { result ≡ within limit (own_horizon slot (loads_of loads.now n) (bounds_of interrupts.now 0 (length interrupts.now / 4))) }
{
    let own = multiple_of(loads, 2, 3, n, slot, limit)?;
    multiple_of(interrupts, 3, 4, interrupts.len() / 4, own, limit)
}
