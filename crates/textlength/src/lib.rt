// The length of a task set's text: one 01 line, the 05 line and the 06 line where the set has them, then the lines of the tasks and the 07 lines.
#![tactic(auto)]

ghost use Rattle.std.specs.Prelude.{◌≡◌, ◌≤◌, length as bytes};
ghost use Rattle.tasks.specs.Set.{most_tasks, most_interrupts};
ghost use Rattle.tasktext.specs.Text.{text_of};

use framelines_code::lines_length;
use frames::table::Frame;
use optionallines_code::optional_length;
use taskframe::task_frame;
use tasks::set::TaskSet;

// The bytes of a set's text. An 03 line is longer than an 02 line, so each task's line is counted by its own kind.
pub fn text_length(set: TaskSet) -> usize
    requires count_le_most_tasks { set.count ≤ most_tasks }
    requires count_le_most_interrupts { set.interrupts.count ≤ most_interrupts }
    ensures { result ≡ bytes (text_of set) }
{
    let first = lines_length(Frame::Header, 1);
    let header = set.header;
    let ticks = header.masked;
    let masked = optional_length(Frame::Masked, ticks);
    let number = header.rule;
    let rule = optional_length(Frame::Rule, number);
    let mut tasks = 0;
    for i in 0..set.count {
        let frame = task_frame(set.tasks[i]);
        tasks += lines_length(frame, 1);
    }
    let last = lines_length(Frame::Interrupt, set.interrupts.count);
    first + masked + rule + tasks + last
}
