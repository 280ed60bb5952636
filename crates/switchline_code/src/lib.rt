// The line of one switch: what begins on a ring processor at a tick, and its line.
// What is carried from switch to switch stands in switchline/specs/Before.antt.
#![tactic(auto)]

ghost use Rattle.std.specs.Prelude.{◌≡◌, suc, ◌+◌, ◌*◌, ◌≤◌, ◌<◌, length as count, take};
ghost use Rattle.digits.specs.Stored.{stored};
ghost use Rattle.frames.specs.declared.table.Frame.{Frame};
ghost use Rattle.frames.specs.Table.{length_of, row_of};
ghost use Rattle.ring.specs.Who.{who_of};
ghost use Rattle.turn.specs.Switches.{runs, switch_line};
ghost use Rattle.turn.specs.Stretch.{Laid};
ghost use Rattle.switchline.specs.Before.{server_before, until_before};

use frames::table::Row;
use framewrite_code::put_row;
use ring::clock::Tick;
use ring::cover::Stand;
use ring_who::who;
use stretch::stand_after;
use switchline::Switched;
use turn::Turn;

// What runs on a processor from a tick on where it begins: at tick 0 its first reserve, later what follows the server before.
fn begun(reserves: &[u64], turn: Turn, processor: u64, tick: u64, before: u64) -> Stand
    requires laid { Laid turn reserves.now × (1 ≤ processor) × (processor ≤ turn.ring) }
    requires before_value { before ≡ server_before turn.slot (take turn.servers reserves.now) processor tick }
    requires tick_value { tick ≡ until_before turn.slot (take turn.servers reserves.now) processor tick }
    ensures { result ≡ who_of turn.slot (take turn.servers reserves.now) processor (record { 0 = tick }) }
{
    if tick == 0 {
        return who(reserves, turn.servers, turn.slot, processor, Tick(0));
    }
    stand_after(reserves, turn.servers, turn.slot, turn.idle, before)
}

// Writes the line of a processor that switches at a tick.
pub fn put_switch(
    out: &mut [u8],
    at: usize,
    reserves: &[u64],
    turn: Turn,
    row: Row,
    processor: u64,
    tick: u64,
    before: u64,
) -> Switched
    requires laid { Laid turn reserves.now × (1 ≤ processor) × (processor ≤ turn.ring) × (tick < turn.ring * turn.slot) }
    requires before_value { before ≡ server_before turn.slot (take turn.servers reserves.now) processor tick }
    requires tick_value { tick ≡ until_before turn.slot (take turn.servers reserves.now) processor tick }
    requires row_value { (row ≡ row_of Frame.Switch) × (at + length_of Frame.Switch + 1 ≤ count out.old) }
    ensures value { result ≡ record { at = at + length_of Frame.Switch + 1; server = server_before turn.slot (take turn.servers reserves.now) processor (suc tick); until = until_before turn.slot (take turn.servers reserves.now) processor (suc tick) } }
    ensures out_after { out.new ≡ stored out.old at (switch_line (record { tick = tick; processor = processor; server = runs turn.slot (take turn.servers reserves.now) processor tick })) }
{
    let stand = begun(reserves, turn, processor, tick, before);
    let figures = [tick, processor, stand.server];
    let end = put_row(out, at, row, &figures);
    let until = tick + stand.left;
    Switched {
        at: end,
        server: stand.server,
        until: until,
    }
}
