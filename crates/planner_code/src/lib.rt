// The planner: the plan that document 01 describes, or the first refusal and the all-zero plan; and its steps, what rows 11 and 5 to 9 say
// and the servers. What it means stands in planner/specs/Planner.antt and settling/specs/Settled.antt.
#![tactic(auto)]

ghost use Rattle.std.specs.Prelude.{◌≡◌};
ghost use Rattle.rows.specs.Rows.{horizon_of};
ghost use Rattle.planner.specs.Planner.{Clear, plan_of};
ghost use Rattle.settling.specs.Settled.{set_rows, Cleared, settled_of, settled_by};

use alonerow_code::first_alone;
use byprocessor_code::by_processor;
use planned::{board_of, plan_of, refused, unsettled};
use planner::PlanAnswer;
use refusals::Refusal;
use rows_code::charged;
use setfigures_code::figures;
use settling::Settled;
use tasks::set::TaskSet;

// Row 11 first; then rows 5 to 9, each over all tasks before the next.
pub fn rows_of(set: TaskSet) -> Result<u64, Refusal>
    ensures { result ≡ set_rows set }
{
    if askrow::asks(set) {
        return Err(Refusal::Ask);
    }
    charged(set)
}

// Row 13, then the servers or row 10, by the horizon that row 9 found. The figures and the interrupts by processor are worked out once.
fn placed(set: TaskSet, horizon: u64) -> Settled
    requires { Clear set × (horizon ≡ horizon_of set) }
    ensures { result ≡ settled_of set }
{
    let header = set.header;
    let n = set.count;
    let numbers = figures(set);
    let interrupts = by_processor(set.interrupts, header.processors);
    let end = 4 * set.interrupts.count;
    let alone = first_alone(header, &numbers, n, &interrupts[..end], horizon);
    if alone != 0 {
        return unsettled(Refusal::Alone(alone as u8));
    }
    let servers = sizing_code::serve(header, &numbers, n, &interrupts[..end], horizon);
    let outcome = board_of(set, servers);
    if let Err(refusal) = outcome {
        return unsettled(refusal);
    }
    Settled {
        servers,
        outcome: Ok(()),
    }
}

// The servers of a set of which rows 11 and 5 to 9 are known, or the refusal.
pub fn settle(set: TaskSet, rows: Result<u64, Refusal>) -> Settled
    requires { Cleared rows set }
    ensures { result ≡ settled_by rows set }
{
    match rows {
        Err(refusal) => unsettled(refusal),
        Ok(horizon) => placed(set, horizon),
    }
}

// Rows 11 and 5 to 9, then rows 13 and 10, then the plan.
pub fn make(set: TaskSet) -> PlanAnswer
    ensures { result ≡ plan_of set }
{
    let rows = rows_of(set);
    let made = settle(set, rows);
    let outcome = made.outcome;
    if let Err(refusal) = outcome {
        return refused(refusal);
    }
    PlanAnswer {
        plan: plan_of(set, made.servers),
        outcome: Ok(()),
    }
}
