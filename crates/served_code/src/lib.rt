// The loads of the server at some places among a file's figures, and its own horizon.
// What is asked stands in served/specs/Served.antt. Loads stand in a slice of numbers, three for each, figures and interrupts in slices of four for
// each.
#![tactic(auto)]

ghost use Rattle.std.specs.Prelude.{◌++◌, ◌≡◌, ◌+◌, ◌*◌, ◌≤◌, length, take};
ghost use Rattle.digits.specs.Stored.{stored};
ghost use Rattle.loads.specs.Charge.{numbers_of, server_loads};
ghost use Rattle.loads.specs.Figures.{members_at};
ghost use Rattle.members.specs.Server.{board_of, server_horizon, Bounded};
ghost use Rattle.served.specs.Served.{Served};

use loads_code::charge;
use members_code::horizon_of;
use store::store;
use tasks::set::{Header, TaskSet};

// The numbers of a server's loads and of the interrupts, as many as there may be.
pub const ROOM: usize = 3 * TaskSet::MOST_TASKS + 4 * TaskSet::MOST_INTERRUPTS;

// The members at the first k places, charged, and the interrupts' numbers behind them, from the start of `loads` on, and the server's own horizon: never past `horizon`, which
// is a multiple of it.
pub fn charge_server(
    header: Header,
    cache: u64,
    figures: &[u64],
    places: &[u8],
    k: usize,
    interrupts: &[u64],
    horizon: u64,
    loads: &mut [u64],
) -> u64
    requires served { Served header cache figures.now places.now k horizon }
    requires bounded { Bounded header interrupts.now horizon }
    requires interrupts_in_bounds { 3 * k + length interrupts.now ≤ length loads.old }
    ensures value { result ≡ server_horizon (board_of header interrupts.now) (members_at figures.now (take k places.now)) }
    ensures loads_after { loads.new ≡ stored loads.old 0 (numbers_of (server_loads header (members_at figures.now (take k places.now))) ++ interrupts.now) }
{
    charge(header, cache, figures, places, k, loads);
    store(loads, 3 * k, interrupts);
    let slot = header.slot as u64;
    horizon_of(loads, k, interrupts, slot, horizon).unwrap_or(horizon)
}
