// The switch list of a task file, into a lent buffer. What is answered stands in switchfile/specs/OfFile.antt.
#![tactic(auto)]

ghost use Rattle.std.specs.Prelude.{◌≡◌};
ghost use Rattle.refusals.specs.Leaves.{leaves};
ghost use Rattle.planfit.specs.Fit.{Fits};
ghost use Rattle.taskplan.specs.File.{filed_of};
ghost use Rattle.switchlist.specs.Write.{plan_switches};
ghost use Rattle.switchfile.specs.OfFile.{switched, listed};

use laidtext::{Text, fit_laid};
use planfit_code::fit_refusal;
use planner_code::settle;
use refusals::Written;
use taskplan_code::rows_read;
use taskread_code::read;

// The list, or one 1F line: what the program `switches` prints.
pub fn answer(text: &[u8], out: &mut [u8]) -> Written
    ensures { Fits out.old (switched text.now) result out.new }
{
    let file = read(text);
    let rows = rows_read(file);
    let set = file.set;
    let made = settle(set, rows);
    let outcome = made.outcome;
    match outcome {
        Ok(()) => fit_laid(Text::Switches, set, made.servers, out),
        Err(refusal) => fit_refusal(refusal, out),
    }
}

// The list alone: a refused file stores nothing.
pub fn list(text: &[u8], out: &mut [u8]) -> Written
    ensures { (result ≡ listed text.now out.old) × (out.new ≡ leaves (listed text.now out.old) out.old (plan_switches (filed_of text.now).plan)) }
{
    let file = read(text);
    let rows = rows_read(file);
    let set = file.set;
    let made = settle(set, rows);
    let outcome = made.outcome;
    match outcome {
        Ok(()) => fit_laid(Text::Switches, set, made.servers, out),
        Err(refusal) => Err(refusal),
    }
}
