// The switches of one turn of the ring as text, written from switch to switch: the time goes with the lines and the processors.
// What they are stands in turn's specs/Switches.antt, the lines of one tick in ticklines.
#![tactic(auto)]

ghost use Rattle.std.specs.Prelude.{◌≡◌, ◌≤◌, length as count, take};
ghost use Rattle.digits.specs.Stored.{stored};
ghost use Rattle.turn.specs.Switches.{switch_text};
ghost use Rattle.turn.specs.Stretch.{Laid};

use frames::table::Frame;
use frames_code::row_of;
use tasks::set::TaskSet;
use ticklines::put_tick;
use turn::Turn;

// Writes the lines of a turn.
pub fn put_turn(out: &mut [u8], reserves: &[u64], turn: Turn)
    requires laid { Laid turn reserves.now }
    requires reserves_bound { count (switch_text turn.slot (take turn.servers reserves.now)) ≤ count out.old }
    ensures { out.new ≡ stored out.old 0 (switch_text turn.slot (take turn.servers reserves.now)) }
{
    let end = turn.ring * turn.slot;
    let mut servers = [0u64; TaskSet::MOST_PROCESSORS as usize];
    let mut until = [0u64; TaskSet::MOST_PROCESSORS as usize];
    let row = row_of(Frame::Switch);
    let mut at = 0;
    let mut tick = 0;
    while tick < end {
        let next = put_tick(out, at, &mut servers, &mut until, reserves, turn, row, tick);
        at = next.at;
        tick = next.tick;
    }
}
