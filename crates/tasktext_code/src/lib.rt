// The lines of a set's tasks, each an 02 or an 03 line, written one behind the other. What they are stands in tasktext/specs/Text.antt.
#![tactic(auto)]

ghost use Rattle.std.specs.Prelude.{◌≡◌, ◌+◌, ◌≤◌, length as bytes};
ghost use Rattle.digits.specs.Stored.{stored};
ghost use Rattle.tasks.specs.Set.{most_tasks, members};
ghost use Rattle.tasktext.specs.Text.{task_lines};

use frames_code::row_of;
use framewrite_code::put_row;
use taskframe::task_frame;
use tasks::set::TaskSet;
use taskvalues::task_values;

// Writes the lines of the tasks, in file order, and says where they end.
pub fn put_tasks(out: &mut [u8], at: usize, set: TaskSet) -> usize
    requires count_le_most_tasks { set.count ≤ most_tasks }
    requires set_bound { at + bytes (task_lines (members set)) ≤ bytes out.old }
    ensures value { result ≡ at + bytes (task_lines (members set)) }
    ensures out_after { out.new ≡ stored out.old at (task_lines (members set)) }
{
    let mut next = at;
    for i in 0..set.count {
        let task = set.tasks[i];
        let frame = task_frame(task);
        let row = row_of(frame);
        let values = task_values(task);
        next = put_row(out, next, row, &values);
    }
    next
}
