// The 07 lines of a task file, from the line behind its tasks to the end of the text or to the first line that is refused.
#![tactic(auto)]

ghost use Rattle.std.specs.Prelude.{◌≡◌, []};
ghost use Rattle.taskfile.specs.File.{interrupts_among};
ghost use Rattle.taskfile.specs.Taken.{BehindTasks};
ghost use Rattle.interruptlines.specs.Ended.{Ended};

use frames::table::Frame;
use framesizes_code::length;
use interruptline::{interrupt_at, interrupt_row};
use interruptlines::InterruptLines;
use tasks::set::Interrupts;

// From `at` on, behind so many lines without an 07 line among them.
pub fn interrupt_lines(text: &[u8], from: usize, before: usize) -> InterruptLines
    requires behind_tasks { BehindTasks text.now before from }
    requires before_value { interrupts_among text.now before ≡ [] }
    ensures { Ended text.now before result }
{
    let mut interrupts = Interrupts::none();
    let mut at = from;
    let mut lines = before;
    while at < text.len() {
        let count = interrupts.count;
        let outcome = interrupt_row(text, at, lines, count);
        let Ok(()) = outcome else {
            return InterruptLines {
                outcome,
                interrupts,
                lines,
            };
        };
        let interrupt = interrupt_at(text, at);
        interrupts.each[count] = interrupt;
        interrupts.count = count + 1;
        at += length(Frame::Interrupt) + 1;
        lines += 1;
    }
    InterruptLines {
        outcome: Ok(()),
        interrupts,
        lines,
    }
}
