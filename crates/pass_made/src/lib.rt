// Does a server pass with a reserve, about a set and a plan that is checked already; and the refused question.
// What is answered stands in doespass/specs/DoesPass.antt.
#![tactic(auto)]

ghost use Rattle.std.specs.Prelude.{◌≡◌, true};
ghost use Rattle.plancheck.specs.Makes.{makes};
ghost use Rattle.planserver.specs.Recorded.{Recorded};
ghost use Rattle.doespass.specs.DoesPass.{refused_pass, own_pass, does_pass};

use doespass::PassAnswer;
use named_code::{is_allowed_to, is_server};
use plan::plan::Plan;
use plan::server::Server;
use planserver_code::pass_judged;
use record_of::record_of;
use refusals::Refusal;
use tasks::set::TaskSet;
use verdict::answer::{Reading, Verdict};

pub fn refused_pass(refusal: Refusal) -> PassAnswer
    ensures { result ≡ refused_pass refusal }
{
    PassAnswer {
        outcome: Err(refusal),
        verdict: Verdict::Yes(Reading {
            length: 0,
            demand: 0,
            supply: 0,
        }),
    }
}

// Does a server pass, by its record in a plan that is checked already.
pub fn pass_own(set: TaskSet, own: Server, reserve: u64) -> PassAnswer
    requires { Recorded set own }
    ensures { result ≡ own_pass set own reserve }
{
    if !is_allowed_to(set.header, own.cache, reserve) {
        return refused_pass(Refusal::Ask);
    }
    PassAnswer {
        outcome: Ok(()),
        verdict: pass_judged(set, own, reserve),
    }
}

// Does a server pass, by a plan that is checked already.
pub fn pass_made(set: TaskSet, plan: Plan, server: u64, reserve: u64) -> PassAnswer
    requires { makes set plan ≡ true }
    ensures { result ≡ does_pass set plan server reserve }
{
    if !is_server(plan, server) {
        return refused_pass(Refusal::Ask);
    }
    let own = record_of(set, plan, server);
    pass_own(set, own, reserve)
}
