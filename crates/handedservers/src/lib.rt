// The servers of a plan of numbers. A server's numbers are its count, its places, its reserve, its start and its cache cost.
#![tactic(auto)]

ghost use Rattle.std.specs.Prelude.{◌≡◌, ◌≤◌};
ghost use Rattle.handed.specs.Handed.{most_numbers};
ghost use Rattle.handedservers.specs.Servers.{server_from, servers_from};

use handed::{EACH, SERVERS, byte_at, number_at};
use plan::server::Server;
use ring::clock::Position;
use std::array::from_fn;
use tasks::set::TaskSet;

// The server whose numbers stand from `at` on.
fn server_from(numbers: &[u64], at: usize) -> Server
    requires { at ≤ most_numbers }
    ensures { result ≡ server_from numbers.now at }
{
    let end = at + 1 + TaskSet::MOST_TASKS;
    Server {
        count: number_at(numbers, at) as usize,
        places: from_fn(|i| byte_at(numbers, at + 1 + i)),
        reserve: number_at(numbers, end),
        start: Position(number_at(numbers, end + 1)),
        cache: number_at(numbers, end + 2),
    }
}

pub fn servers_from(numbers: &[u64]) -> [Server; TaskSet::MOST_TASKS]
    ensures { result ≡ servers_from numbers.now }
{
    from_fn(|i| server_from(numbers, SERVERS + EACH * i))
}
