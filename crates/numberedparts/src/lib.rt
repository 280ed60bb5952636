// All servers and all first reserves of a plan, told in numbers. What they are stands in specs/Parts.antt.
#![tactic(auto)]

ghost use Rattle.std.specs.Prelude.{◌≡◌, ◌+◌, ◌*◌, ◌≤◌, length};
ghost use Rattle.digits.specs.Stored.{stored};
ghost use Rattle.tasks.specs.Set.{most_tasks};
ghost use Rattle.framelines.specs.Lines.{joined};
ghost use Rattle.handed.specs.Handed.{per_server, servers_at, first_at};
ghost use Rattle.numberedparts.specs.Parts.{server_numbers_at, stand_numbers_at};

use handed::{EACH, FIRST, SERVERS};
use numberedserver::put_server;
use plan::plan::Plan;
use store::store;

// Puts the numbers of all servers to their place.
pub fn put_servers(numbers: &mut [u64], plan: Plan)
    requires { servers_at + most_tasks * per_server ≤ length numbers.old }
    ensures { numbers.new ≡ stored numbers.old servers_at (joined (server_numbers_at plan.server) most_tasks) }
{
    for (q, server) in plan.server.iter().enumerate() {
        put_server(numbers, SERVERS + EACH * q, *server);
    }
}

// Puts the numbers of all first reserves to their place.
pub fn put_first(numbers: &mut [u64], plan: Plan)
    requires { first_at + most_tasks * 2 ≤ length numbers.old }
    ensures { numbers.new ≡ stored numbers.old first_at (joined (stand_numbers_at plan.first) most_tasks) }
{
    for (p, first) in plan.first.iter().enumerate() {
        store(numbers, FIRST + 2 * p, &[first.server, first.left]);
    }
}
