// From placed and sized servers on: row 10, and the plan. What it means stands in settling/specs/Settled.antt and planner/specs/Planner.antt.
#![tactic(auto)]

ghost use Rattle.std.specs.Prelude.{◌≡◌, take, Err};
ghost use Rattle.refusals.specs.First.{when};
ghost use Rattle.reserves.specs.Slotted.{SlottedFirst};
ghost use Rattle.reserves.specs.Reserves.{processors_of};
ghost use Rattle.sizing.specs.Reserve.{servers_of};
ghost use Rattle.setfigures.specs.Figures.{set_figures};
ghost use Rattle.setfigures.specs.Board.{set_board};
ghost use Rattle.plan.specs.Plan.{zero_plan};
ghost use Rattle.layout.specs.Made.{plan_made};
ghost use Rattle.planner.specs.Planner.{Placeable, needed, full_row, answer};
ghost use Rattle.settling.specs.Settled.{no_servers, settled};

use layout_code::lay_out;
use plan::plan::Plan;
use planner::PlanAnswer;
use refusals::{Outcome, Refusal};
use reserves_code::{ring_processors, whole_count};
use settling::Settled;
use sizing::Servers;
use tasks::set::TaskSet;

// The processors that servers need: those of the ring, and one for each that has its own.
fn processors_of(served: Servers, slot: u64) -> u64
    requires { SlottedFirst slot served.reserve served.count }
    ensures { result ≡ processors_of slot (take served.count served.reserve) }
{
    let n = served.count as usize;
    let reserve = served.reserve;
    let ring = ring_processors(&reserve, n, slot);
    let whole = whole_count(&reserve, n, slot);
    ring + whole
}

pub fn refused(refusal: Refusal) -> PlanAnswer
    ensures { result ≡ answer (Err refusal) zero_plan }
{
    PlanAnswer {
        plan: Plan::zero(),
        outcome: Err(refusal),
    }
}

// A set that a row refuses has no servers.
pub fn unsettled(refusal: Refusal) -> Settled
    ensures { result ≡ settled (Err refusal) no_servers }
{
    let none = [0u64; TaskSet::MOST_TASKS];
    let servers = Servers {
        count: 0,
        placement: none,
        cache: none,
        reserve: none,
    };
    let outcome = Err(refusal);
    Settled { servers, outcome }
}

// Row 10 of a set for which row 11, rows 5 to 9 and row 13 are clear, by its servers.
pub fn board_of(set: TaskSet, served: Servers) -> Outcome
    requires { Placeable set × (served ≡ servers_of (set_board set) (set_figures set)) }
    ensures { result ≡ when (full_row set) (Refusal.Full (needed set)) }
{
    let header = set.header;
    let slot = header.slot as u64;
    let processors = processors_of(served, slot);
    if (header.processors as u64) < processors {
        return Err(Refusal::Full(processors as u8));
    }
    Ok(())
}

// The plan of a set for which row 11, rows 5 to 9 and row 13 are clear, by its servers.
pub fn plan_of(set: TaskSet, served: Servers) -> Plan
    requires { Placeable set × (served ≡ servers_of (set_board set) (set_figures set)) }
    ensures { result ≡ plan_made set }
{
    let header = set.header;
    lay_out(served, set.count, header.slot as u64)
}
