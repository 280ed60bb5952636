// Rows 7 and 8 of the refusals, each over all tasks of a set; row 8 by each task's own cache cost.
// What they mean stands in tightrows/specs/Rows.antt.
#![tactic(auto)]

ghost use Rattle.std.specs.Prelude.{◌≡◌, ◌≤◌};
ghost use Rattle.tasks.specs.Set.{members, most_tasks};
ghost use Rattle.tasks.specs.Search.{first_task};
ghost use Rattle.tightrows.specs.Rows.{tight_row, row_of};

use tasks::set::{Header, Task, TaskSet};
use tightrows::TaskRow;

// 8 TIGHT.
fn breaks_tight(header: Header, task: Task) -> bool
    ensures { result ≡ tight_row header task }
{
    let jitter = header.relj as u32;
    if task.deadline <= jitter {
        return true;
    }
    let due = charging::charged_deadline(task.deadline as u64, header.relj as u64);
    let cost = charging::charged_cost(
        task.cost as u64,
        header.relo as u64,
        header.ctswo as u64,
        task.cache_cost(header) as u64,
    );
    due < cost
}

fn breaks(row: TaskRow, header: Header, task: Task) -> bool
    ensures { result ≡ row_of row header task }
{
    match row {
        TaskRow::Slot => task.deadline < header.slot,
        TaskRow::Tight => breaks_tight(header, task),
    }
}

// The first task, from 1, that breaks the row, or 0.
pub fn first_broken(set: TaskSet, row: TaskRow) -> usize
    requires { set.count ≤ most_tasks }
    ensures { result ≡ first_task (row_of row set.header) (members set) }
{
    let header = set.header;
    for i in 0..set.count {
        if breaks(row, header, set.tasks[i]) {
            return i + 1;
        }
    }
    0
}
