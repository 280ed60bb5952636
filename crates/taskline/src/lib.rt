// A line of a task file where a task may stand: a task's figures, or the refusal of the lowest row that holds there.
// The reader takes the answer apart and hands a refusal straight up.
#![tactic(auto)]

ghost use Rattle.std.specs.Prelude.{◌≡◌, ◌+◌, ◌<◌, length, drop, false};
ghost use Rattle.frameread.specs.Line.{formed};
ghost use Rattle.frames.specs.declared.table.Frame.{Frame};
ghost use Rattle.taskfile.specs.File.{line_outcome, task_at, tasks_among};
ghost use Rattle.taskfile.specs.Taken.{Tasked, ids_of};
ghost use Rattle.lineanswer.specs.Answer.{line_or};

use frameread_code::kind_at;
use frames::table::Frame;
use listedline_code::listed_line;
use refusals::Refusal;
use tasks::set::Task;

// The line at `at`, no 07 line, behind so many lines whose tasks have these ids.
pub fn task_line(text: &[u8], at: usize, lines: usize, ids: &[u8]) -> Result<Task, Refusal>
    requires tasked { Tasked text.now lines at }
    requires at_in_bounds { at < length text.now }
    requires ids_value { ids.now ≡ ids_of (tasks_among text.now lines) }
    requires text_value { formed Frame.Interrupt (drop at text.now) ≡ false }
    ensures { result ≡ line_or (line_outcome text.now (lines + 1)) (task_at (drop at text.now)) }
{
    let line = (lines + 1) as u8;
    let found = kind_at(text, at);
    let Some(frame) = found else {
        return Err(Refusal::Line(line));
    };
    match frame {
        Frame::Header | Frame::Masked | Frame::Rule => Err(Refusal::Order(line)),
        Frame::Task | Frame::Cached => listed_line(text, at, frame, lines, ids),
        _ => Err(Refusal::Line(line)),
    }
}
