// The texts of a plan, the plan's own and its switch list, from the servers of its set into a lent buffer. The plan is laid here, so that it
// stands on the stack only while a text is written (docs/SPEED.md).
#![tactic(auto)]

ghost use Rattle.std.specs.Prelude.{◌≡◌, Ok};
ghost use Rattle.sizing.specs.Reserve.{servers_of};
ghost use Rattle.setfigures.specs.Figures.{set_figures};
ghost use Rattle.setfigures.specs.Board.{set_board};
ghost use Rattle.layout.specs.Made.{plan_made};
ghost use Rattle.planner.specs.Planner.{plan_outcome};
ghost use Rattle.planfit.specs.Fit.{Fits};
ghost use Rattle.laidtext.specs.Kinds.{text_of};

use fit_switches::fit_switches;
use planfit_code::fit_plan;
use planned::plan_of;
use refusals::Written;
use sizing::Servers;
use tasks::set::TaskSet;

// Which text of a plan.
#[derive(Clone, Copy)]
pub enum Text {
    Plan,
    Switches,
}

// The text of the plan that a set's servers are laid out to.
#[inline(never)]
pub fn fit_laid(text: Text, set: TaskSet, servers: Servers, out: &mut [u8]) -> Written
    requires { (plan_outcome set ≡ Ok tt) × (servers ≡ servers_of (set_board set) (set_figures set)) }
    ensures { Fits out.old (text_of text set (plan_made set)) result out.new }
{
    let plan = plan_of(set, servers);
    match text {
        Text::Plan => fit_plan(set, plan, out),
        Text::Switches => fit_switches(set, plan, out),
    }
}
