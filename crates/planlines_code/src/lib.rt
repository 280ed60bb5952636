// The 12, 13 and 14 lines of a plan, one kind after the other, put by the table of frames.
// What each line holds stands in planlines/specs/Line.antt.
#![tactic(auto)]

ghost use Rattle.std.specs.Prelude.{◌≡◌, ◌+◌, ◌*◌, ◌≤◌, length as bytes};
ghost use Rattle.frames.specs.Table.{length_of};
ghost use Rattle.framelines.specs.Lines.{joined};
ghost use Rattle.digits.specs.Stored.{stored};
ghost use Rattle.tasks.specs.Set.{most_tasks, most_processors};
ghost use Rattle.planlines.specs.Line.{server_line, placed_line, processor_line};

use framelines_code::put_lines;
use frames::table::Frame;
use plan::plan::Plan;
use planfigures_code::{placed_values, processor_values};
use server_values::server_values;
use tasks::set::TaskSet;

// The 12 lines, by server.
pub fn put_servers(out: &mut [u8], at: usize, plan: Plan)
    requires { (plan.servers ≤ most_tasks) × (at + plan.servers * (length_of Frame.Server + 1) ≤ bytes out.old) }
    ensures { out.new ≡ stored out.old at (joined (server_line plan) plan.servers) }
{
    let n = plan.servers as usize;
    let values = server_values(plan);
    put_lines(out, at, Frame::Server, &values, n);
}

// The 13 lines, in file order.
pub fn put_tasks(out: &mut [u8], at: usize, set: TaskSet, plan: Plan)
    requires { (set.count ≤ most_tasks) × (at + set.count * (length_of Frame.Placed + 1) ≤ bytes out.old) }
    ensures { out.new ≡ stored out.old at (joined (placed_line set plan) set.count) }
{
    let placement = plan.placement;
    let values = placed_values(set, &placement);
    put_lines(out, at, Frame::Placed, &values, set.count);
}

// The 14 lines of the first processors.
pub fn put_processors(out: &mut [u8], at: usize, plan: Plan, n: usize)
    requires { (n ≤ most_processors) × (at + n * (length_of Frame.Processor + 1) ≤ bytes out.old) }
    ensures { out.new ≡ stored out.old at (joined (processor_line plan) n) }
{
    let first = plan.first;
    let values = processor_values(first, n);
    put_lines(out, at, Frame::Processor, &values, n);
}
