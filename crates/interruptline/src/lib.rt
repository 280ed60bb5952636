// A line of a task file behind its tasks: the refusal of the lowest row that holds there, and the figures of an 07 line.
#![tactic(auto)]

ghost use Rattle.std.specs.Prelude.{◌≡◌, true, ◌+◌, ◌≤◌, ◌<◌, length, drop};
ghost use Rattle.frameread.specs.Line.{formed};
ghost use Rattle.frames.specs.declared.table.Frame.{Frame};
ghost use Rattle.taskfile.specs.File.{line_outcome, interrupt_at, interrupts_among};
ghost use Rattle.taskfile.specs.Taken.{BehindTasks};

use frameread_code::{field, kind_at};
use frames::table::Frame;
use refusals::{Outcome, Refusal};
use tasks::set::{Interrupt, TaskSet};

pub fn interrupt_at(text: &[u8], at: usize) -> Interrupt
    requires at_in_bounds { at ≤ length text.now }
    requires text_value { formed Frame.Interrupt (drop at text.now) ≡ true }
    ensures { result ≡ interrupt_at (drop at text.now) }
{
    Interrupt {
        processor: field(text, at, Frame::Interrupt, 0) as u8,
        cost: field(text, at, Frame::Interrupt, 1) as u32,
        deadline: field(text, at, Frame::Interrupt, 2) as u32,
        period: field(text, at, Frame::Interrupt, 3) as u32,
        jitter: field(text, at, Frame::Interrupt, 4) as u16,
    }
}

// The line at `at`, behind so many lines, so many of them 07 lines.
pub fn interrupt_row(text: &[u8], at: usize, lines: usize, count: usize) -> Outcome
    requires behind_tasks { BehindTasks text.now lines at }
    requires at_in_bounds { at < length text.now }
    requires count_value { count ≡ length (interrupts_among text.now lines) }
    ensures { result ≡ line_outcome text.now (lines + 1) }
{
    let line = (lines + 1) as u8;
    let found = kind_at(text, at);
    let Some(frame) = found else {
        return Err(Refusal::Line(line));
    };
    match frame {
        Frame::Header | Frame::Task | Frame::Cached | Frame::Masked | Frame::Rule => {
            Err(Refusal::Order(line))
        }
        Frame::Interrupt => {
            let full = count == TaskSet::MOST_INTERRUPTS;
            if full {
                return Err(Refusal::Count(line));
            }
            Ok(())
        }
        _ => Err(Refusal::Line(line)),
    }
}
