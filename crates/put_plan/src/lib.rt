// The 11 line of a plan and the line of a refusal, put by the table of frames.
// What each line holds stands in planlines/specs/Line.antt.
#![tactic(auto)]

ghost use Rattle.std.specs.Prelude.{◌≡◌, ◌≤◌, length as bytes};
ghost use Rattle.digits.specs.Stored.{stored};
ghost use Rattle.planlines.specs.Line.{plan_line, refusal_text};

use frames::table::Frame;
use framewrite_code::put_line;
use plan::plan::Plan;
use refusals::Refusal;

// The 11 line.
pub fn put_plan(out: &mut [u8], plan: Plan)
    requires { bytes (plan_line plan) ≤ bytes out.old }
    ensures { out.new ≡ stored out.old 0 (plan_line plan) }
{
    let values = [plan.whole, plan.ring, plan.servers, plan.slot, plan.idle];
    put_line(out, 0, Frame::Plan, &values);
}

// The 1F line.
pub fn put_refusal(out: &mut [u8], refusal: Refusal)
    requires { bytes (refusal_text refusal) ≤ bytes out.old }
    ensures { out.new ≡ stored out.old 0 (refusal_text refusal) }
{
    let number = refusals_code::number(refusal);
    let place = refusals_code::place(refusal) as u64;
    let values = [number, place];
    put_line(out, 0, Frame::Refused, &values);
}
