// The 02 and 03 lines of a task file, from the line behind its opening to the first 07 line, to the end of the text or to the first line that
// is refused.
#![tactic(auto)]

ghost use Rattle.std.specs.Prelude.{◌≡◌, Ok};
ghost use Rattle.taskfile.specs.File.{line_outcome};
ghost use Rattle.opening.specs.Opening.{opening_of};
ghost use Rattle.tasklines.specs.Ended.{Ended};

use frames::table::Frame;
use framesizes_code::length;
use is_line::is_line;
use lineanswer::of_line;
use opening::Opening;
use taskframe::task_frame;
use taskline::task_line;
use tasklines::TaskLines;
use tasks::set::TaskSet;

// The cursor `at` stands behind the lines taken so far; `ids` has the ids of the set's tasks.
pub fn task_lines(text: &[u8], opening: Opening) -> TaskLines
    requires text_value { line_outcome text.now 1 ≡ Ok tt }
    requires opening_value { opening ≡ opening_of text.now }
    ensures { Ended text.now result }
{
    let mut set = TaskSet::zero();
    let board = opening.header;
    set.header = board;
    let mut ids = [0u8; TaskSet::MOST_TASKS];
    let mut at = opening.at;
    let mut lines = opening.lines;
    while at < text.len() && !is_line(text, at, Frame::Interrupt) {
        let count = set.count;
        let line = task_line(text, at, lines, &ids[..count]);
        let Ok(task) = line else {
            return TaskLines {
                outcome: of_line(line),
                set,
                at,
                lines,
            };
        };
        set.tasks[count] = task;
        set.count = count + 1;
        ids[count] = task.id;
        let frame = task_frame(task);
        at += length(frame) + 1;
        lines += 1;
    }
    TaskLines {
        outcome: Ok(()),
        set,
        at,
        lines,
    }
}
