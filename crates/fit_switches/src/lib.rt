// The switch list of a plan into a lent buffer: row 12, else the exact text. What is answered stands in switchlist/specs/Write.antt.
#![tactic(auto)]

ghost use Rattle.std.specs.Prelude.{◌≡◌, true};
ghost use Rattle.plancheck.specs.Makes.{makes};
ghost use Rattle.planfit.specs.Fit.{Fits};
ghost use Rattle.switchlist.specs.Write.{plan_switches};

use framelines_code::lines_length;
use frames::table::Frame;
use plan::plan::Plan;
use plan_code::reserves;
use refusals::{Refusal, Written};
use tasks::set::TaskSet;
use turn::Turn;
use turncount::switch_count;
use walk::put_turn;

// The list of a plan that is checked already.
#[inline(never)]
pub fn fit_switches(set: TaskSet, plan: Plan, out: &mut [u8]) -> Written
    requires { makes set plan ≡ true }
    ensures { Fits out.old (plan_switches plan) result out.new }
{
    let row = reserves(plan);
    let turn = Turn {
        servers: plan.servers as usize,
        slot: plan.slot,
        ring: plan.ring,
        idle: plan.idle,
    };
    let needed = lines_length(Frame::Switch, switch_count(&row, turn) as usize);
    if out.len() < needed {
        return Err(Refusal::Room);
    }
    put_turn(out, &row, turn);
    Ok(needed)
}
