// Whether two plans agree in all that is used. Unused room is not compared.
// What it means stands in planagree/specs/Agrees.antt.
#![tactic(auto)]

ghost use Rattle.std.specs.Prelude.{◌≡◌, ◌+◌, ◌≤◌};
ghost use Rattle.tasks.specs.Set.{most_tasks};
ghost use Rattle.planagree.specs.Agrees.{same_figures, same_used, same_servers, same_processors, agrees, InRoom};

use plan::plan::Plan;
use plan::server::Server;

fn same_figures(a: Plan, b: Plan) -> bool
    ensures { result ≡ same_figures a b }
{
    a.whole == b.whole
        && a.ring == b.ring
        && a.servers == b.servers
        && a.slot == b.slot
        && a.idle == b.idle
}

fn same_server(a: Server, b: Server) -> bool
    requires { b.count ≤ most_tasks }
    ensures { result ≡ same_used a b }
{
    let n = b.count;
    a.count == n
        && a.reserve == b.reserve
        && a.start == b.start
        && a.cache == b.cache
        && a.places[..n] == b.places[..n]
}

// Two plans of equally many servers.
fn same_servers(a: Plan, b: Plan) -> bool
    requires { InRoom b × (a.servers ≡ b.servers) }
    ensures { result ≡ same_servers a b }
{
    let n = b.servers as usize;
    for i in 0..n {
        if !same_server(a.server[i], b.server[i]) {
            return false;
        }
    }
    true
}

// Two plans of equally many processors.
fn same_processors(a: Plan, b: Plan) -> bool
    requires { (b.ring + b.whole ≤ most_tasks) × (a.ring + a.whole ≡ b.ring + b.whole) }
    ensures { result ≡ same_processors a b }
{
    let n = (b.ring + b.whole) as usize;
    a.first[..n] == b.first[..n]
}

// The plans of so many tasks agree.
pub fn agree(tasks: usize, a: Plan, b: Plan) -> bool
    requires { (tasks ≤ most_tasks) × InRoom b }
    ensures { result ≡ agrees tasks a b }
{
    same_figures(a, b)
        && same_servers(a, b)
        && a.placement[..tasks] == b.placement[..tasks]
        && same_processors(a, b)
}
