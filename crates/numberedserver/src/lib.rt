// A server told in numbers. What they are stands in specs/Server.antt.
#![tactic(auto)]

ghost use Rattle.std.specs.Prelude.{◌≡◌, ◌+◌, ◌≤◌, length};
ghost use Rattle.digits.specs.Stored.{stored};
ghost use Rattle.handed.specs.Handed.{per_server};
ghost use Rattle.numberedserver.specs.Server.{place_numbers, server_numbers};

use plan::server::Server;
use std::array::from_fn;
use store::store;
use tasks::set::TaskSet;

// The places of a server.
fn wide_places(server: Server) -> [u64; TaskSet::MOST_TASKS]
    ensures { result ≡ place_numbers server.places }
{
    from_fn(|k| server.places[k] as u64)
}

// Puts the numbers of a server to a place among numbers.
pub fn put_server(numbers: &mut [u64], at: usize, server: Server)
    requires { at + per_server ≤ length numbers.old }
    ensures { numbers.new ≡ stored numbers.old at (server_numbers server) }
{
    let count = [server.count as u64];
    store(numbers, at, &count);
    let places = wide_places(server);
    store(numbers, at + 1, &places);
    let rest = [server.reserve, server.start.0, server.cache];
    store(numbers, at + 1 + TaskSet::MOST_TASKS, &rest);
}
