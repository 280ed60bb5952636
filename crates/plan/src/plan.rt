// The plan of a set: its figures, its servers, the placement of its tasks and the first reserve of each processor.
// There are no more processors than servers, and no more servers than tasks. Unused room is zero in every answer.
ghost use Rattle.std.specs.Prelude.{◌≡◌};
ghost use Rattle.plan.specs.Plan.{zero_plan};

use crate::server::Server;
use ring::clock::Position;
use ring::cover::Stand;
use tasks::set::TaskSet;

#[derive(Clone, Copy)]
pub struct Plan {
    pub whole: u64,
    pub ring: u64,
    pub servers: u64,
    pub slot: u64,
    pub idle: u64,
    // by server
    pub server: [Server; TaskSet::MOST_TASKS],
    // by task in file order: its server
    pub placement: [u64; TaskSet::MOST_TASKS],
    // by processor: its first server, and the ticks of that reserve
    pub first: [Stand; TaskSet::MOST_TASKS],
}

impl Plan {
    // The all-zero plan, which a refused planning answers.
    pub fn zero() -> Plan
        ensures { result ≡ zero_plan }
    {
        let places = [0u8; TaskSet::MOST_TASKS];
        let server = Server {
            count: 0,
            places,
            reserve: 0,
            start: Position(0),
            cache: 0,
        };
        let stand = Stand { server: 0, left: 0 };
        Plan {
            whole: 0,
            ring: 0,
            servers: 0,
            slot: 0,
            idle: 0,
            server: [server; TaskSet::MOST_TASKS],
            placement: [0u64; TaskSet::MOST_TASKS],
            first: [stand; TaskSet::MOST_TASKS],
        }
    }
}
