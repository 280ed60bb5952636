// The switches of one tick as text: a line for each processor whose time is over, and every processor carried past the tick.
// What they are stands in turn's specs/Switches.antt, what is carried from switch to switch in specs/Walk.antt.
#![tactic(auto)]

ghost use Rattle.std.specs.Prelude.{◌≡◌, suc, ◌+◌, ◌*◌, ◌≤◌, ◌<◌, length as count, take, drop};
ghost use Rattle.digits.specs.Stored.{stored};
ghost use Rattle.frames.specs.declared.table.Frame.{Frame};
ghost use Rattle.frames.specs.Table.{row_of};
ghost use Rattle.turn.specs.Switches.{switches_at, switch_lines};
ghost use Rattle.turn.specs.Stretch.{Laid};
ghost use Rattle.switchline.specs.Before.{until_before};
ghost use Rattle.ticklines.specs.Walk.{least_of, Carried};

use frames::table::Row;
use switchline_code::put_switch;
use turn::Turn;

// Where the next line goes, and the tick of the next switch, or the turn's end.
#[derive(Clone, Copy)]
pub struct Next {
    pub at: usize,
    pub tick: u64,
}

// Writes the lines of a tick, and carries every processor past it. Places behind the ring processors' stay as they were.
pub fn put_tick(
    out: &mut [u8],
    at: usize,
    servers: &mut [u64],
    until: &mut [u64],
    reserves: &[u64],
    turn: Turn,
    row: Row,
    tick: u64,
) -> Next
    requires laid { Laid turn reserves.now × (tick < turn.ring * turn.slot) × (row ≡ row_of Frame.Switch) }
    requires carried { Carried turn.slot (take turn.servers reserves.now) tick 0 turn.ring servers.old until.old }
    requires ring_bound { at + count (switch_lines (switches_at turn.slot (take turn.servers reserves.now) tick turn.ring)) ≤ count out.old }
    ensures value { result ≡ record { at = at + count (switch_lines (switches_at turn.slot (take turn.servers reserves.now) tick turn.ring)); tick = least_of (λ p. until_before turn.slot (take turn.servers reserves.now) p (suc tick)) (turn.ring * turn.slot) turn.ring } }
    ensures out_after { out.new ≡ stored out.old at (switch_lines (switches_at turn.slot (take turn.servers reserves.now) tick turn.ring)) }
    ensures carried_2 { Carried turn.slot (take turn.servers reserves.now) (suc tick) 0 turn.ring servers.new until.new }
    ensures servers_unchanged { (drop turn.ring servers.new ≡ drop turn.ring servers.old) × (drop turn.ring until.new ≡ drop turn.ring until.old) }
{
    let ring = turn.ring as usize;
    let mut next = at;
    let mut least = turn.ring * turn.slot;
    for i in 0..ring {
        let mut end = until[i];
        if end == tick {
            let processor = i as u64 + 1;
            let put = put_switch(out, next, reserves, turn, row, processor, tick, servers[i]);
            next = put.at;
            end = put.until;
            servers[i] = put.server;
            until[i] = end;
        }
        least = least.min(end);
    }
    Next {
        at: next,
        tick: least,
    }
}
