// The switch list of a plan that is handed in with its set: row 11 unless the planner makes it, then row 12, else the exact text.
// What is answered stands in switchlist/specs/Write.antt.
#![tactic(auto)]

ghost use Rattle.std.specs.Prelude.{◌≡◌};
ghost use Rattle.refusals.specs.Leaves.{leaves};
ghost use Rattle.turn.specs.Count.{longest_switches};
ghost use Rattle.switchlist.specs.Write.{plan_switches, write_switches};

use fit_switches::fit_switches;
use frames::table::MOST_FIELDS;
use frames_code::TABLE;
use plan::plan::Plan;
use plancheck_code::makes_plan;
use refusals::{Refusal, Written};
use tasks::set::TaskSet;

// The bytes of a 21 line with its LF, by the table.
const SWITCH_BYTES: usize = TABLE[11].starts[MOST_FIELDS] as usize + 1;

const MOST_PROCESSORS: usize = TaskSet::MOST_PROCESSORS as usize;

// The bytes of the longest list: a buffer of so many has room for every one.
pub const LONGEST: usize = (MOST_PROCESSORS * (TaskSet::MOST_TASKS + 1) + MOST_PROCESSORS - 1)
    * SWITCH_BYTES;

pub fn longest() -> usize
    ensures { result ≡ longest_switches }
{
    LONGEST
}

pub fn write_switches(set: TaskSet, plan: Plan, out: &mut [u8]) -> Written
    ensures { (result ≡ write_switches set plan out.old) × (out.new ≡ leaves (write_switches set plan out.old) out.old (plan_switches plan)) }
{
    if !makes_plan(set, plan) {
        return Err(Refusal::Ask);
    }
    fit_switches(set, plan, out)
}
