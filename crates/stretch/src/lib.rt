// The stretch that follows another on the ring: the next ring server's reserve, or the idle positions behind the last.
// What it is stands in turn's specs/Stretch.antt. Server 0 is the idle stretch.
#![tactic(auto)]

ghost use Rattle.std.specs.Prelude.{◌≡◌, take};
ghost use Rattle.reserves.specs.Slotted.{SlottedFirst};
ghost use Rattle.reserves.specs.Reserves.{idle_positions};
ghost use Rattle.turn.specs.Stretch.{stand_after, Stretched};

use ring::clock::Position;
use ring::cover::Stand;
use ring_code::stand_at;

// Behind the last reserve come the idle positions, and where there are none the ring begins again.
pub fn stand_after(reserves: &[u64], n: usize, slot: u64, idle: u64, server: u64) -> Stand
    requires slotted_first { SlottedFirst slot reserves.now n × (idle ≡ idle_positions slot (take n reserves.now)) }
    requires stretched { Stretched slot (take n reserves.now) server }
    ensures { result ≡ stand_after slot (take n reserves.now) server }
{
    for i in server as usize..n {
        let reserve = reserves[i];
        if reserve < slot {
            let next = i as u64 + 1;
            return Stand {
                server: next,
                left: reserve,
            };
        }
    }
    let has_idle = idle != 0;
    if has_idle {
        return Stand {
            server: 0,
            left: idle,
        };
    }
    stand_at(reserves, n, slot, Position(0))
}
