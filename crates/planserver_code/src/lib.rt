// Does one server of a plan that is checked already pass with a reserve. What it means stands in planserver/specs/Recorded.antt.
#![tactic(auto)]

ghost use Rattle.std.specs.Prelude.{◌≡◌};
ghost use Rattle.demand.specs.Supply.{Allowed};
ghost use Rattle.loads.specs.Charge.{server_loss};
ghost use Rattle.members.specs.Server.{verdict_for};
ghost use Rattle.setfigures.specs.Board.{set_board};
ghost use Rattle.planserver.specs.Recorded.{own_members, Recorded};

use byprocessor_code::by_processor;
use horizon_within::horizon;
use judging::judged;
use plan::server::Server;
use setfigures_code::figures;
use tasks::set::TaskSet;
use verdict::answer::Verdict;

// Does a server pass with an allowed reserve, by its record: its members are at the places there.
pub fn pass_judged(set: TaskSet, own: Server, reserve: u64) -> Verdict
    requires recorded { Recorded set own }
    requires allowed { Allowed set.header.slot (server_loss set.header (own_members set own)) reserve }
    ensures { result ≡ verdict_for (set_board set) (own_members set own) reserve }
{
    let common = horizon(set);
    let numbers = figures(set);
    let header = set.header;
    let cache = own.cache;
    let k = own.count;
    let interrupts = by_processor(set.interrupts, header.processors);
    let end = 4 * set.interrupts.count;
    judged(
        header,
        cache,
        &numbers,
        &own.places,
        k,
        reserve,
        &interrupts[..end],
        common,
    )
}
