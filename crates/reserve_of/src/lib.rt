// The smallest reserve of one server of a placement. What it means stands in sizing/specs/Reserve.antt.
// The tasks' own figures stand in one slice, four for each, the server of each task in another, of which the first n count, and the
// interrupts in a third, four numbers for each.
#![tactic(auto)]

ghost use Rattle.std.specs.Prelude.{◌≡◌, ◌≤◌, length, take};
ghost use Rattle.loads.specs.Figures.{figures_to};
ghost use Rattle.members.specs.Server.{board_of, Filed, Bounded};
ghost use Rattle.servers.specs.Placement.{cache_in};
ghost use Rattle.sizing.specs.Reserve.{reserve_in};

use members_code::loss;
use places_code::places_of;
use served_code::{ROOM, charge_server};
use tasks::set::{Header, TaskSet};

// The smallest allowed reserve with which server q passes, by its own cache cost, loss and horizon.
#[inline(never)]
pub fn reserve_of(
    header: Header,
    cache: u64,
    figures: &[u64],
    placement: &[u64],
    n: usize,
    q: u64,
    interrupts: &[u64],
    horizon: u64,
) -> u64
    requires filed { Filed header figures.now n horizon }
    requires bounded { Bounded header interrupts.now horizon }
    requires n_in_bounds { n ≤ length placement.now }
    requires cache_value { cache ≡ cache_in (figures_to figures.now n) (take n placement.now) q }
    ensures { result ≡ reserve_in (board_of header interrupts.now) (figures_to figures.now n) (take n placement.now) q }
{
    let mut places = [0u8; TaskSet::MOST_TASKS];
    let count = places_of(placement, n, q, &mut places);
    let mut loads = [0u64; ROOM];
    let own = charge_server(
        header, cache, figures, &places, count, interrupts, horizon, &mut loads,
    );
    let masked = header.masked_ticks() as u64;
    let slot = header.slot as u64;
    let end = 3 * count + interrupts.len();
    reserving::smallest_reserve(&loads[..end], count, masked, slot, loss(header, cache), own)
}
