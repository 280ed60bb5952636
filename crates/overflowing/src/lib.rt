// Figures that are too large for the fields of their lines, of the header, of a task, of an optional line of one field (05 or 06) and of an interrupt.
#![tactic(auto)]

ghost use Rattle.std.specs.Prelude.{◌≡◌, ◌≤◌};
ghost use Rattle.frames.specs.Table.{fields_in};
ghost use Rattle.taskask.specs.Ask.{header_overflows, task_overflows, optional_overflows, interrupt_overflows};

use frames::table::Frame;
use overflows::overflows;
use taskframe::task_frame;
use tasks::set::{Header, Interrupt, Task};
use taskvalues::{header_values, interrupt_values, task_values};

// A figure of the header is too large for its field.
pub fn header_overflows(header: Header) -> bool
    ensures { result ≡ header_overflows header }
{
    let values = header_values(header);
    overflows(Frame::Header, &values)
}

// A figure of the task is too large for its field.
pub fn task_overflows(task: Task) -> bool
    ensures { result ≡ task_overflows task }
{
    let values = task_values(task);
    let frame = task_frame(task);
    overflows(frame, &values)
}

// The figure of an optional line of this frame is too large for its field.
pub fn optional_overflows(frame: Frame, figure: Option<u16>) -> bool
    requires { fields_in frame ≤ 1 }
    ensures { result ≡ optional_overflows frame figure }
{
    let Some(given) = figure else {
        return false;
    };
    let value = [given as u64];
    overflows(frame, &value)
}

// A figure of the interrupt is too large for its field.
pub fn interrupt_overflows(interrupt: Interrupt) -> bool
    ensures { result ≡ interrupt_overflows interrupt }
{
    let values = interrupt_values(interrupt);
    overflows(Frame::Interrupt, &values)
}
