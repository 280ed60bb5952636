// The phase rule, from a tick to a position; and the server whose reserve covers a position, with the ticks to that reserve's end.
// Server 0 is the idle stretch at the ring's end.
#![tactic(auto)]

ghost use Rattle.std.specs.Prelude.{◌≡◌, ◌<◌, ◌*◌, ◌≤◌, ◌^◌, take};
ghost use Rattle.reserves.specs.Slotted.{SlottedFirst};
ghost use Rattle.reserves.specs.Reserves.{ring_length};
ghost use Rattle.ring.specs.Cover.{stand_at};
ghost use Rattle.ring.specs.Phase.{phase};

use ring::clock::{Position, Tick};
use ring::cover::Stand;

// Each ring reserve starts where the last ended, so the first that ends past the position covers it.
pub fn stand_at(reserves: &[u64], n: usize, slot: u64, at: Position) -> Stand
    requires { SlottedFirst slot reserves.now n × (at.0 < ring_length slot (take n reserves.now)) }
    ensures { result ≡ stand_at slot (take n reserves.now) at }
{
    let place = at.0;
    let mut end: u64 = 0;
    for (i, reserve) in reserves[..n].iter().enumerate() {
        if *reserve < slot {
            end += *reserve;
            if place < end {
                let server = i as u64 + 1;
                let left = end - place;
                return Stand { server, left };
            }
        }
    }
    let length = wholes_code::ceiling(end, slot) * slot;
    let left = length - place;
    Stand { server: 0, left }
}

// The tick is reduced before anything is added to it, so that no sum wraps.
pub fn position(slot: u64, ring: u64, processor: u64, tick: Tick) -> Position
    requires { (1 ≤ slot) × (1 ≤ processor) × (processor ≤ ring) × (ring * slot < 2 ^ 48) }
    ensures { result ≡ phase slot ring processor tick }
{
    let x = tick.0;
    let length = ring * slot;
    let reduced = x % length;
    let offset = (processor - 1) * slot;
    Position((reduced + offset) % length)
}
