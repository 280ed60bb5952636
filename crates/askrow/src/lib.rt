// Row 11 of a task set: it breaks row 3 or 4, or holds what no file's lines can carry.
// The planner and the task writer ask it first of any set that a caller built.
#![tactic(auto)]

ghost use Rattle.std.specs.Prelude.{◌≡◌, ◌≤◌};
ghost use Rattle.tasks.specs.Set.{members, counted, most_tasks, most_interrupts};
ghost use Rattle.tasks.specs.Search.{some};
ghost use Rattle.taskask.specs.Ask.{task_overflows, interrupt_overflows, ask_row};

use frames::table::Frame;
use overflowing::{header_overflows, interrupt_overflows, optional_overflows, task_overflows};
use taskask_code::{breaks_count, breaks_twice};
use tasks::set::{Interrupts, TaskSet};

fn tasks_overflow(set: TaskSet) -> bool
    requires { set.count ≤ most_tasks }
    ensures { result ≡ some task_overflows (members set) }
{
    set.tasks[..set.count]
        .iter()
        .any(|task| task_overflows(*task))
}

fn interrupts_overflow(interrupts: Interrupts) -> bool
    requires { interrupts.count ≤ most_interrupts }
    ensures { result ≡ some interrupt_overflows (counted interrupts) }
{
    interrupts.each[..interrupts.count]
        .iter()
        .any(|interrupt| interrupt_overflows(*interrupt))
}

// 11 ASK of a set.
pub fn asks(set: TaskSet) -> bool
    ensures { result ≡ ask_row set }
{
    if breaks_count(set) {
        return true;
    }
    if breaks_twice(set) {
        return true;
    }
    let header = set.header;
    if header_overflows(header) {
        return true;
    }
    if tasks_overflow(set) {
        return true;
    }
    let masked = header.masked;
    if optional_overflows(Frame::Masked, masked) {
        return true;
    }
    let rule = header.rule;
    if optional_overflows(Frame::Rule, rule) {
        return true;
    }
    interrupts_overflow(set.interrupts)
}
