// From placed and sized servers to the plan: the record of each server, and the first reserve of each processor.
// What they mean stands in layout/specs/Layout.antt. The reserves stand in a slice, the cache costs in another, of both of which the first n count.
#![tactic(auto)]

ghost use Rattle.std.specs.Prelude.{◌≡◌, ◌≤◌, length, take};
ghost use Rattle.tasks.specs.Set.{most_tasks};
ghost use Rattle.places.specs.Padded.{pad_with, up_to};
ghost use Rattle.reserves.specs.Slotted.{SlottedFirst};
ghost use Rattle.reserves.specs.Reserves.{processors_of};
ghost use Rattle.ring.specs.Who.{first_reserve};
ghost use Rattle.layout.specs.Layout.{ring_start, server_of, laid_out};
ghost use Rattle.plan.specs.Plan.{zero_stand};
ghost use Rattle.layout.specs.Layable.{Layable};

use places_code::places_of;
use plan::plan::Plan;
use plan::server::Server;
use reserves_code::{ring_processors, ring_ticks, start, whole_count};
use ring::clock::Position;
use ring::cover::Stand;
use sizing::Servers;
use tasks::set::TaskSet;

// Where server q stands on the ring; 0 for a server that has a whole processor.
fn start_of(reserves: &[u64], n: usize, slot: u64, q: usize) -> u64
    requires { SlottedFirst slot reserves.now n × (1 ≤ q) × (q ≤ n) }
    ensures { result ≡ ring_start slot (take n reserves.now) q }
{
    let before = q - 1;
    if reserves[before] < slot {
        start(reserves, n, slot, q as u64)
    } else {
        0
    }
}

// The record of server q.
pub fn server_of<'a>(
    placement: &'a [u64],
    tasks: usize,
    reserves: &'a [u64],
    caches: &'a [u64],
    n: usize,
    slot: u64,
    q: usize,
) -> Server
    requires tasks_in_bounds { (tasks ≤ length placement.now) × (tasks ≤ most_tasks) }
    requires slotted_first { SlottedFirst slot reserves.now n × (1 ≤ q) × (q ≤ n) }
    requires n_in_bounds { n ≤ length caches.now }
    ensures { result ≡ server_of slot (take n caches.now) (take tasks placement.now) (take n reserves.now) q }
{
    let mut places = [0u8; TaskSet::MOST_TASKS];
    let count = places_of(placement, tasks, q as u64, &mut places);
    let before = q - 1;
    let reserve = reserves[before];
    let cache = caches[before];
    let start = Position(start_of(reserves, n, slot, q));
    Server {
        count,
        places,
        reserve,
        start,
        cache,
    }
}

// The first server of each processor, and the ticks of that reserve.
fn first_reserves(
    reserves: &[u64],
    n: usize,
    slot: u64,
    processors: usize,
) -> [Stand; TaskSet::MOST_TASKS]
    requires { SlottedFirst slot reserves.now n × (processors ≤ processors_of slot (take n reserves.now)) × (processors ≤ most_tasks) }
    ensures { result ≡ pad_with zero_stand (up_to (first_reserve slot (take n reserves.now)) processors) }
{
    let none = Stand { server: 0, left: 0 };
    let mut first = [none; TaskSet::MOST_TASKS];
    for i in 0..processors {
        first[i] = ring_who::first(reserves, n, slot, i as u64 + 1);
    }
    first
}

// The plan of so many tasks, placed and sized. The records of the servers are written in their place, so that the plan stands once.
#[inline(never)]
pub fn lay_out(served: Servers, tasks: usize, slot: u64) -> Plan
    requires { Layable served tasks slot }
    ensures { result ≡ laid_out slot (take served.count served.cache) (take tasks served.placement) (take served.count served.reserve) }
{
    let n = served.count as usize;
    let reserve = served.reserve;
    let placement = served.placement;
    let cache = served.cache;
    let whole = whole_count(&reserve, n, slot);
    let ring = ring_processors(&reserve, n, slot);
    let idle = ring * slot - ring_ticks(&reserve, n, slot);
    let first = first_reserves(&reserve, n, slot, (ring + whole) as usize);
    let mut plan = Plan {
        whole,
        ring,
        servers: served.count,
        slot,
        idle,
        placement,
        first,
        ..Plan::zero()
    };
    for i in 0..n {
        plan.server[i] = server_of(&placement, tasks, &reserve, &cache, n, slot, i + 1);
    }
    plan
}
