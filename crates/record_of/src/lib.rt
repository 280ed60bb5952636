// The record of one server of a plan that is checked already. What it is stands in planserver/specs/Recorded.antt.
#![tactic(auto)]

ghost use Rattle.std.specs.Prelude.{◌≡◌, true};
ghost use Rattle.plancheck.specs.Makes.{makes};
ghost use Rattle.named.specs.Named.{is_server};
ghost use Rattle.planserver.specs.Recorded.{server_in};

use layout_code::server_of;
use plan::plan::Plan;
use plan::server::Server;
use plan_code::{caches, reserves};
use tasks::set::TaskSet;

// The record of a server of a plan that is checked already, made anew from the plan's rows: to pick it out would copy every record.
pub fn record_of(set: TaskSet, plan: Plan, server: u64) -> Server
    requires { (makes set plan ≡ true) × (is_server plan server ≡ true) }
    ensures { result ≡ server_in set server }
{
    let tasks = set.count;
    let n = plan.servers as usize;
    let placement = plan.placement;
    let reserve = reserves(plan);
    let cache = caches(plan);
    server_of(
        &placement,
        tasks,
        &reserve,
        &cache,
        n,
        plan.slot,
        server as usize,
    )
}
