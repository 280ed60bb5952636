// The order and the fit of a packing rule, and what is taken from file order into the tasks' turns and back.
// What it means stands in packing/specs/Rules.antt and packing/specs/Turns.antt; the turns come from sorting.
#![tactic(auto)]

ghost use Rattle.std.specs.Prelude.{◌≡◌, ◌*◌, take, replicate};
ghost use Rattle.digits.specs.Stored.{stored};
ghost use Rattle.tasks.specs.Set.{most_tasks};
ghost use Rattle.places.specs.Padded.{padded};
ghost use Rattle.loads.specs.Figures.{own_numbers, figures_to};
ghost use Rattle.packing.specs.Rules.{order_of, fit_of};
ghost use Rattle.packing.specs.Turns.{in_turn, in_file_order};
ghost use Rattle.turns_code.specs.Turned.{Turned, Assigned};

use packing::{Fit, Order};
use store::store;
use tasks::set::TaskSet;

// The order in which a rule places tasks.
pub fn order_of(rule: u16) -> Order
    ensures { result ≡ order_of rule }
{
    let third = rule % 3;
    if third == 0 {
        return Order::File;
    }
    if third == 1 {
        return Order::Falling;
    }
    Order::Rising
}

// The server that a rule takes, of those that take a task.
pub fn fit_of(rule: u16) -> Fit
    ensures { result ≡ fit_of rule }
{
    let third = rule / 3;
    if third == 0 {
        return Fit::First;
    }
    if third == 1 {
        return Fit::Best;
    }
    Fit::Worst
}

// The figures of the first n tasks in their turns, four numbers for each; unused room is zero.
pub fn in_turn(figures: &[u64], turns: &[u64], n: usize) -> [u64; 4 * TaskSet::MOST_TASKS]
    requires { Turned figures.now turns.now n }
    ensures { result ≡ stored (replicate (4 * most_tasks) 0) 0 (own_numbers (in_turn (take n turns.now) (figures_to figures.now n))) }
{
    let mut numbers = [0u64; 4 * TaskSet::MOST_TASKS];
    for j in 0..n {
        let place = turns[j] as usize;
        let from = 4 * place;
        let until = from + 4;
        store(&mut numbers, 4 * j, &figures[from..until]);
    }
    numbers
}

// The servers of the first n tasks in file order, where a placement has them in the tasks' turns; unused room is zero. Of two turns of
// one task the first counts, so the last comes first.
pub fn in_file_order(turns: &[u64], placement: &[u64], n: usize) -> [u64; TaskSet::MOST_TASKS]
    requires { Assigned turns.now placement.now n }
    ensures { result ≡ padded (in_file_order (take n turns.now) (take n placement.now)) }
{
    let mut servers = [0u64; TaskSet::MOST_TASKS];
    for j in (0..n).rev() {
        let at = turns[j] as usize;
        servers[at] = placement[j];
    }
    servers
}
