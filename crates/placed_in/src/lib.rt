// Placing tasks in the order in which they come, by a fit: the servers of all of them.
// What they mean stands in servers/specs/Placement.antt.
#![tactic(auto)]

ghost use Rattle.std.specs.Prelude.{◌≡◌};
ghost use Rattle.loads.specs.Figures.{figures_to};
ghost use Rattle.members.specs.Server.{board_of, Filed, Bounded};
ghost use Rattle.servers.specs.Placement.{placed_by, placed};

use joining_code::server_for;
use packing::Fit;
use servers::placement::Placed;
use share_of::share_of;
use shares::Share;
use soonest::soonest_with;
use std::array::from_fn;
use tasks::set::{Header, TaskSet};

// Each task in its turn joins the server that the fit names of those that take it, otherwise it opens a new one. Rooms are in the
// horizon.
pub fn placed_in(
    header: Header,
    figures: &[u64],
    n: usize,
    interrupts: &[u64],
    horizon: u64,
    fit: Fit,
) -> Placed
    requires filed { Filed header figures.now n horizon }
    requires bounded { Bounded header interrupts.now horizon }
    ensures { result ≡ placed (figures_to figures.now n) (placed_by fit (board_of header interrupts.now) horizon (figures_to figures.now n)) }
{
    let mut count: u64 = 0;
    let mut placement = [0u64; TaskSet::MOST_TASKS];
    let mut kept = [Share {
        work: 0,
        jobs: 0,
        cache: 0,
        due: 0,
    }; TaskSet::MOST_TASKS];
    for i in 0..n {
        let share = share_of(header, figures, i, horizon);
        let q = server_for(
            fit, header, figures, &placement, &kept, i, share, 0, count, interrupts, horizon,
        );
        let at = q as usize - 1;
        prove!(at < TaskSet::MOST_TASKS);
        placement[i] = q;
        let own = kept[at];
        kept[at] = Share {
            work: own.work + share.work,
            jobs: own.jobs + share.jobs,
            cache: own.cache.max(share.cache),
            due: soonest_with(own.due, share.due),
        };
        count = count.max(q);
    }
    Placed {
        count,
        placement,
        cache: from_fn(|at| kept[at].cache),
    }
}
