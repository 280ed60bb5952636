// Rows of numbers by server: where each stands on the ring, how many tasks it has, its cache cost and its reserve.
// Every place is read, so that what is compiled reads a plan where it stands and copies no more than the row.
#![tactic(auto)]

ghost use Rattle.std.specs.Prelude.{◌≡◌, map};
ghost use Rattle.plan.specs.declared.server.Server.{Server};

use plan::plan::Plan;
use std::array::from_fn;
use tasks::set::TaskSet;

pub fn starts(plan: Plan) -> [u64; TaskSet::MOST_TASKS]
    ensures { result ≡ map (λ (s : Server). s.start.0) plan.server }
{
    from_fn(|i| plan.server[i].start.0)
}

pub fn counts(plan: Plan) -> [u64; TaskSet::MOST_TASKS]
    ensures { result ≡ map (λ (s : Server). s.count) plan.server }
{
    from_fn(|i| plan.server[i].count as u64)
}

pub fn caches(plan: Plan) -> [u64; TaskSet::MOST_TASKS]
    ensures { result ≡ map (λ (s : Server). s.cache) plan.server }
{
    from_fn(|i| plan.server[i].cache)
}

// The reserves of a plan's servers, in server order.
pub fn reserves(plan: Plan) -> [u64; TaskSet::MOST_TASKS]
    ensures { result ≡ map (λ (s : Server). s.reserve) plan.server }
{
    from_fn(|i| plan.server[i].reserve)
}
