// Whether a server, of which its share is kept, takes a task.
// What it means stands in taking/specs/Takes.antt and joining/specs/Soonest.antt. The server of each task stands in a slice, of which the
// first i are placed.
#![tactic(auto)]

ghost use Rattle.std.specs.Prelude.{◌≡◌, ◌+◌, ◌≤◌, length, take};
ghost use Rattle.places.specs.Places.{chosen};
ghost use Rattle.loads.specs.Figures.{figures_at, figures_to};
ghost use Rattle.members.specs.Server.{board_of, Filed, Bounded};
ghost use Rattle.shares.specs.Share.{share_of, share_in};
ghost use Rattle.taking.specs.Takes.{takes};

use shares::Share;
use shares_code::total;
use soonest::masked_out;
use taking_code::takes_task;
use tasks::set::Header;

// Server q, of which `own` is kept, takes task i, which brings `share`. A server that would ask more than the horizon with the task in it,
// or that B alone keeps the task out of, cannot take it, and its members are not looked at. B is asked first, so that the compiler makes
// one branch of both.
pub fn may_take(
    header: Header,
    figures: &[u64],
    placement: &[u64],
    i: usize,
    q: u64,
    own: Share,
    share: Share,
    interrupts: &[u64],
    horizon: u64,
) -> bool
    requires filed { Filed header figures.now (i + 1) horizon }
    requires bounded { Bounded header interrupts.now horizon }
    requires i_in_bounds { i ≤ length placement.now }
    requires share_value { share ≡ share_of header horizon (figures_at figures.now i) }
    requires own_value { own ≡ share_in header horizon (chosen (figures_to figures.now i) (take i placement.now) q) }
    ensures { result ≡ takes (board_of header interrupts.now) (figures_to figures.now i) (take i placement.now) (figures_at figures.now i) q }
{
    let masked = header.masked_ticks() as u64;
    let apart = masked_out(share.due, own.due, masked);
    let cost = own.cache.max(share.cache);
    let asked = total(own.work + share.work, own.jobs + share.jobs, cost);
    if asked <= horizon {
        if !apart {
            return takes_task(header, cost, figures, placement, i, q, interrupts, horizon);
        }
    }
    false
}
