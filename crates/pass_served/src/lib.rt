// Does a server pass with a reserve, about a set that has a plan, by its servers: no plan is laid.
// What is answered stands in doespass/specs/DoesPass.antt.
#![tactic(auto)]

ghost use Rattle.std.specs.Prelude.{◌≡◌, Ok};
ghost use Rattle.sizing.specs.Reserve.{servers_of};
ghost use Rattle.setfigures.specs.Figures.{set_figures};
ghost use Rattle.setfigures.specs.Board.{set_board};
ghost use Rattle.layout.specs.Made.{plan_made};
ghost use Rattle.planner.specs.Planner.{plan_outcome};
ghost use Rattle.doespass.specs.DoesPass.{does_pass};

use doespass::PassAnswer;
use layout_code::server_of;
use pass_made::{pass_own, refused_pass};
use refusals::Refusal;
use sizing::Servers;
use tasks::set::TaskSet;

// Does a server pass, by the record that the set's plan would have of it.
#[inline(never)]
pub fn pass_served(set: TaskSet, servers: Servers, server: u64, reserve: u64) -> PassAnswer
    requires { (plan_outcome set ≡ Ok tt) × (servers ≡ servers_of (set_board set) (set_figures set)) }
    ensures { result ≡ does_pass set (plan_made set) server reserve }
{
    let count = servers.count;
    let before_first = server < 1;
    if before_first {
        return refused_pass(Refusal::Ask);
    }
    if count < server {
        return refused_pass(Refusal::Ask);
    }
    let tasks = set.count;
    let header = set.header;
    let slot = header.slot as u64;
    let placement = servers.placement;
    let reserves = servers.reserve;
    let cache = servers.cache;
    let own = server_of(
        &placement,
        tasks,
        &reserves,
        &cache,
        count as usize,
        slot,
        server as usize,
    );
    pass_own(set, own, reserve)
}
