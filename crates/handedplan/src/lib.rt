// The plan of numbers: its five figures, each server, the placement, then the first reserve of each processor.
#![tactic(auto)]

ghost use Rattle.std.specs.Prelude.{◌≡◌};
ghost use Rattle.handedplan.specs.Plan.{placement_from, first_from, plan_from};

use handed::{FIRST, PLACEMENT, number_at};
use handedservers::servers_from;
use plan::plan::Plan;
use ring::cover::Stand;
use std::array::from_fn;
use tasks::set::TaskSet;

fn placement_from(numbers: &[u64]) -> [u64; TaskSet::MOST_TASKS]
    ensures { result ≡ placement_from numbers.now }
{
    from_fn(|i| number_at(numbers, PLACEMENT + i))
}

fn first_from(numbers: &[u64]) -> [Stand; TaskSet::MOST_TASKS]
    ensures { result ≡ first_from numbers.now }
{
    from_fn(|i| {
        let at = FIRST + 2 * i;
        Stand {
            server: number_at(numbers, at),
            left: number_at(numbers, at + 1),
        }
    })
}

pub fn plan_from(numbers: &[u64]) -> Plan
    ensures { result ≡ plan_from numbers.now }
{
    Plan {
        whole: number_at(numbers, 0),
        ring: number_at(numbers, 1),
        servers: number_at(numbers, 2),
        slot: number_at(numbers, 3),
        idle: number_at(numbers, 4),
        server: servers_from(numbers),
        placement: placement_from(numbers),
        first: first_from(numbers),
    }
}
