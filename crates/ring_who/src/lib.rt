// Who runs on a processor at a tick, and for how long; and the first reserve of each processor.
// Ring processors come first, then one for each server that has a whole processor.
#![tactic(auto)]

ghost use Rattle.std.specs.Prelude.{◌≡◌, ◌≤◌, take};
ghost use Rattle.reserves.specs.Slotted.{SlottedFirst};
ghost use Rattle.reserves.specs.Reserves.{processors_of};
ghost use Rattle.ring.specs.Who.{who_of, first_reserve};

use reserves_code::ring_processors;
use ring::clock::Tick;
use ring::cover::Stand;
use ring_code::{position, stand_at};
use whole_server::whole_server;

pub fn who(reserves: &[u64], n: usize, slot: u64, processor: u64, tick: Tick) -> Stand
    requires { SlottedFirst slot reserves.now n × (1 ≤ processor) × (processor ≤ processors_of slot (take n reserves.now)) }
    ensures { result ≡ who_of slot (take n reserves.now) processor tick }
{
    let ring = ring_processors(reserves, n, slot);
    if processor <= ring {
        let at = position(slot, ring, processor, tick);
        return stand_at(reserves, n, slot, at);
    }
    let x = tick.0;
    let server = whole_server(reserves, n, slot, processor - ring - 1);
    Stand {
        server,
        left: slot - x % slot,
    }
}

// What runs at tick 0: ring processor p is at position (p − 1)·S then, and a whole processor's slot begins.
pub fn first(reserves: &[u64], n: usize, slot: u64, processor: u64) -> Stand
    requires { SlottedFirst slot reserves.now n × (1 ≤ processor) × (processor ≤ processors_of slot (take n reserves.now)) }
    ensures { result ≡ first_reserve slot (take n reserves.now) processor }
{
    who(reserves, n, slot, processor, Tick(0))
}
