// The text of a plan: one 11 line, then 12 by server, 13 in file order, 14 by processor, one behind the other.
// What it is stands in plantext/specs/Text.antt.
#![tactic(auto)]

ghost use Rattle.std.specs.Prelude.{◌≡◌, ◌≤◌, length as bytes};
ghost use Rattle.digits.specs.Stored.{stored};
ghost use Rattle.plantext.specs.Text.{plan_text};
ghost use Rattle.plantext.specs.Counts.{CountsFit};

use framelines_code::lines_length;
use frames::table::Frame;
use plan::plan::Plan;
use planlines_code::{put_processors, put_servers, put_tasks};
use put_plan::put_plan;
use tasks::set::TaskSet;

pub fn text_length(set: TaskSet, plan: Plan) -> usize
    requires { CountsFit set plan }
    ensures { result ≡ bytes (plan_text set plan) }
{
    let first = lines_length(Frame::Plan, 1);
    let servers = lines_length(Frame::Server, plan.servers as usize);
    let tasks = lines_length(Frame::Placed, set.count);
    let processors = lines_length(Frame::Processor, (plan.ring + plan.whole) as usize);
    first + servers + tasks + processors
}

// From the back to the front, so that what is compiled holds the plan once (docs/SPEED.md).
pub fn put_text(out: &mut [u8], set: TaskSet, plan: Plan)
    requires { CountsFit set plan × (bytes (plan_text set plan) ≤ bytes out.old) }
    ensures { out.new ≡ stored out.old 0 (plan_text set plan) }
{
    let count = (plan.ring + plan.whole) as usize;
    let servers = lines_length(Frame::Plan, 1);
    let tasks = servers + lines_length(Frame::Server, plan.servers as usize);
    let processors = tasks + lines_length(Frame::Placed, set.count);
    put_processors(out, processors, plan, count);
    put_tasks(out, tasks, set, plan);
    put_servers(out, servers, plan);
    put_plan(out, plan);
}
