// The kind of line that a task stands in: 03 where it has a cache cost of its own, else 02.
#![tactic(auto)]

ghost use Rattle.std.specs.Prelude.{◌≡◌};
ghost use Rattle.taskframe.specs.Frames.{task_frame};

use frames::table::Frame;
use tasks::set::Task;

pub fn task_frame(task: Task) -> Frame
    ensures { result ≡ task_frame task }
{
    let cache = task.cache;
    match cache {
        Some(_) => Frame::Cached,
        None => Frame::Task,
    }
}
