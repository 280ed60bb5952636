// A text into a lent buffer: stored at its start where it fits, else row 12 and nothing stored.
// What is answered stands in planfit/specs/Fit.antt.
#![tactic(auto)]

ghost use Rattle.plantext.specs.Text.{plan_text};
ghost use Rattle.planlines.specs.Line.{refusal_text};
ghost use Rattle.planfit.specs.Fit.{Fits};
ghost use Rattle.plantext.specs.Counts.{CountsFit};

use frames::table::Frame;
use framesizes_code::length;
use plan::plan::Plan;
use plantext_code::{put_text, text_length};
use put_plan::put_refusal;
use refusals::{Refusal, Written};
use tasks::set::TaskSet;

// The text of a plan.
#[inline(never)]
pub fn fit_plan(set: TaskSet, plan: Plan, out: &mut [u8]) -> Written
    requires { CountsFit set plan }
    ensures { Fits out.old (plan_text set plan) result out.new }
{
    let needed = text_length(set, plan);
    if out.len() < needed {
        return Err(Refusal::Room);
    }
    put_text(out, set, plan);
    Ok(needed)
}

// The line of a refusal.
pub fn fit_refusal(refusal: Refusal, out: &mut [u8]) -> Written
    ensures { Fits out.old (refusal_text refusal) result out.new }
{
    let size = length(Frame::Refused) + 1;
    if out.len() < size {
        return Err(Refusal::Room);
    }
    put_refusal(out, refusal);
    Ok(size)
}
