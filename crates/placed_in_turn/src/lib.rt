// Placing in the order of a rule: the servers of all tasks, in file order.
// What they mean stands in servers/specs/Placement.antt; the order in packing/specs/Turns.antt.
#![tactic(auto)]

ghost use Rattle.std.specs.Prelude.{◌≡◌};
ghost use Rattle.loads.specs.Figures.{figures_to};
ghost use Rattle.packing.specs.Turns.{turns_of, in_turn, in_file_order};
ghost use Rattle.members.specs.Server.{board_of, Filed, Bounded};
ghost use Rattle.servers.specs.Placement.{placed_by, placed};

use packing::{Fit, Order};
use placed_in::placed_in;
use servers::placement::Placed;
use sorting::turns;
use tasks::set::Header;
use turns_code::{in_file_order, in_turn};

// The tasks are placed in their turns, and their servers put into file order.
pub fn placed_in_turn(
    header: Header,
    figures: &[u64],
    n: usize,
    interrupts: &[u64],
    horizon: u64,
    order: Order,
    fit: Fit,
) -> Placed
    requires filed { Filed header figures.now n horizon }
    requires bounded { Bounded header interrupts.now horizon }
    ensures { result ≡ placed (figures_to figures.now n) (in_file_order (turns_of order (figures_to figures.now n)) (placed_by fit (board_of header interrupts.now) horizon (in_turn (turns_of order (figures_to figures.now n)) (figures_to figures.now n)))) }
{
    let places = turns(figures, n, order);
    let own = in_turn(figures, &places, n);
    let placed = placed_in(header, &own, n, interrupts, horizon, fit);
    let servers = placed.placement;
    let cache = placed.cache;
    let placement = in_file_order(&places, &servers, n);
    Placed {
        count: placed.count,
        placement,
        cache,
    }
}
