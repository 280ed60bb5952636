// Writing a plan that is handed in with its set: row 11 unless the planner makes it, then row 12, else the exact text.
// What is answered stands in planfile/specs/Write.antt.
#![tactic(auto)]

ghost use Rattle.std.specs.Prelude.{◌≡◌};
ghost use Rattle.refusals.specs.Leaves.{leaves};
ghost use Rattle.plantext.specs.Text.{plan_text};
ghost use Rattle.planfile.specs.Write.{write_plan};

use plan::plan::Plan;
use plancheck_code::makes_plan;
use planfit_code::fit_plan;
use refusals::{Refusal, Written};
use tasks::set::TaskSet;

pub fn write_plan(set: TaskSet, plan: Plan, out: &mut [u8]) -> Written
    ensures { (result ≡ write_plan set plan out.old) × (out.new ≡ leaves (write_plan set plan out.old) out.old (plan_text set plan)) }
{
    if !makes_plan(set, plan) {
        return Err(Refusal::Ask);
    }
    fit_plan(set, plan, out)
}
