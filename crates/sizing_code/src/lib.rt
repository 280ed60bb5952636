// The reserves of the servers of a placement, and placing and sizing in one. What they mean stands in sizing/specs/Reserve.antt.
// The tasks' own figures stand in one slice, four for each, the server of each task in another, of which the first n count, and the
// interrupts in a third, four numbers for each.
#![tactic(auto)]

ghost use Rattle.std.specs.Prelude.{◌≡◌, ◌≤◌, length, take};
ghost use Rattle.loads.specs.Figures.{figures_to};
ghost use Rattle.places.specs.Padded.{padded, up_to};
ghost use Rattle.tasks.specs.Set.{most_tasks};
ghost use Rattle.members.specs.Server.{board_of, Filed, Bounded};
ghost use Rattle.sizing.specs.Reserve.{reserve_in, servers_of, Costed};

use reserve_of::reserve_of;
use servers_code::place;
use sizing::Servers;
use tasks::set::{Header, TaskSet};

// The reserves of servers 1 to count, in server order.
pub fn size(
    header: Header,
    figures: &[u64],
    placement: &[u64],
    n: usize,
    cache: &[u64],
    count: u64,
    interrupts: &[u64],
    horizon: u64,
) -> [u64; TaskSet::MOST_TASKS]
    requires filed { Filed header figures.now n horizon }
    requires bounded { Bounded header interrupts.now horizon }
    requires n_in_bounds { (n ≤ length placement.now) × (count ≤ most_tasks) }
    requires costed { Costed (figures_to figures.now n) (take n placement.now) cache.now count }
    ensures { result ≡ padded (up_to (reserve_in (board_of header interrupts.now) (figures_to figures.now n) (take n placement.now)) count) }
{
    let mut reserve = [0u64; TaskSet::MOST_TASKS];
    for at in 0..count as usize {
        let cost = cache[at];
        let q = at as u64 + 1;
        reserve[at] = reserve_of(header, cost, figures, placement, n, q, interrupts, horizon);
    }
    reserve
}

// The tasks are placed, and then each server is sized. The horizon is the file's, or another multiple of the slot and of the periods of tasks and
// interrupts.
pub fn serve(header: Header, figures: &[u64], n: usize, interrupts: &[u64], horizon: u64) -> Servers
    requires filed { Filed header figures.now n horizon }
    requires bounded { Bounded header interrupts.now horizon }
    ensures { result ≡ servers_of (board_of header interrupts.now) (figures_to figures.now n) }
{
    let placed = place(header, figures, n, interrupts, horizon);
    let placement = placed.placement;
    let costs = placed.cache;
    let reserve = size(
        header,
        figures,
        &placement,
        n,
        &costs,
        placed.count,
        interrupts,
        horizon,
    );
    Servers {
        count: placed.count,
        placement,
        cache: costs,
        reserve,
    }
}
