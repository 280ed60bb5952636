// Placing by the packing rule of the file: the servers of all tasks.
// What they mean stands in servers/specs/Placement.antt.
#![tactic(auto)]

ghost use Rattle.std.specs.Prelude.{◌≡◌, true};
ghost use Rattle.packing.specs.declared.Order.{Order};
ghost use Rattle.loads.specs.Figures.{figures_to};
ghost use Rattle.members.specs.Server.{board_of, Filed, Bounded};
ghost use Rattle.servers.specs.Placement.{placement_of, placed};

use packing::Order;
use placed_in::placed_in;
use placed_in_turn::placed_in_turn;
use servers::placement::Placed;
use tasks::set::Header;
use turns_code::{fit_of, order_of};

// In file order, and in no other, the tasks are placed as they stand.
fn as_they_stand(order: Order) -> bool
    ensures no_other { (result ≡ true) → (order ≡ Order.File) }
    ensures file_order { (order ≡ Order.File) → (result ≡ true) }
{
    match order {
        Order::File => true,
        Order::Falling => false,
        Order::Rising => false,
    }
}

// By the rule of the header.
pub fn place(header: Header, figures: &[u64], n: usize, interrupts: &[u64], horizon: u64) -> Placed
    requires filed { Filed header figures.now n horizon }
    requires bounded { Bounded header interrupts.now horizon }
    ensures { result ≡ placed (figures_to figures.now n) (placement_of (board_of header interrupts.now) (figures_to figures.now n)) }
{
    let rule = header.rule_number();
    let fit = fit_of(rule);
    let order = order_of(rule);
    let stand = as_they_stand(order);
    if stand {
        return placed_in(header, figures, n, interrupts, horizon, fit);
    }
    placed_in_turn(header, figures, n, interrupts, horizon, order, fit)
}
