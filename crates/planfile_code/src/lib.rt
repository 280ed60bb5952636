// The whole tool, from the bytes of a task file to the bytes of its answer: a plan, or one 1F line.
// What it answers stands in planfile/specs/Tool.antt.
#![tactic(auto)]

ghost use Rattle.planfit.specs.Fit.{Fits};
ghost use Rattle.planfile.specs.Tool.{answered};

use laidtext::{Text, fit_laid};
use planfit_code::fit_refusal;
use planner_code::settle;
use refusals::Written;
use taskplan_code::rows_read;
use taskread_code::read;

pub fn answer(text: &[u8], out: &mut [u8]) -> Written
    ensures { Fits out.old (answered text.now) result out.new }
{
    let file = read(text);
    let rows = rows_read(file);
    let set = file.set;
    let made = settle(set, rows);
    let outcome = made.outcome;
    match outcome {
        Ok(()) => fit_laid(Text::Plan, set, made.servers, out),
        Err(refusal) => fit_refusal(refusal, out),
    }
}
