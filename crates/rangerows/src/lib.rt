// Rows 5 and 6 of the refusals, over the figures of a task set.
// The reader gives them after the lines, the planner again for a set that a caller built.
#![tactic(auto)]

ghost use Rattle.std.specs.Prelude.{◌≡◌, ◌≤◌};
ghost use Rattle.tasks.specs.Set.{members, counted, most_tasks, most_interrupts};
ghost use Rattle.taskrows.specs.Rows.{range_row, interrupt_row, figures_outcome};
ghost use Rattle.tasks.specs.Search.{first_task};

use refusals::{Outcome, Refusal};
use taskrows_code::{breaks_board, breaks_interrupt, breaks_range};
use tasks::set::{Interrupts, TaskSet};

// The first task, from 1, that breaks the range, or 0.
pub fn first_out_of_range(set: TaskSet) -> usize
    requires { set.count ≤ most_tasks }
    ensures { result ≡ first_task range_row (members set) }
{
    set.tasks[..set.count]
        .iter()
        .position(|task| breaks_range(*task))
        .map_or(0, |i| i + 1)
}

// The first interrupt, from 1, that breaks the range on a board with so many processors, or 0.
pub fn first_interrupt_out(processors: u8, interrupts: Interrupts) -> usize
    requires { interrupts.count ≤ most_interrupts }
    ensures { result ≡ first_task (interrupt_row processors) (counted interrupts) }
{
    interrupts.each[..interrupts.count]
        .iter()
        .position(|interrupt| breaks_interrupt(processors, *interrupt))
        .map_or(0, |k| k + 1)
}

// Rows 5 and 6, the first that holds.
pub fn figures(set: TaskSet) -> Outcome
    requires count_le_most_tasks { set.count ≤ most_tasks }
    requires count_le_most_interrupts { set.interrupts.count ≤ most_interrupts }
    ensures { result ≡ figures_outcome set }
{
    let header = set.header;
    if breaks_board(header) {
        return Err(Refusal::Board);
    }
    let task = first_out_of_range(set);
    let broken = task != 0;
    if broken {
        return Err(Refusal::Range(task as u8));
    }
    let interrupt = first_interrupt_out(header.processors, set.interrupts);
    let kept = interrupt == 0;
    if kept {
        return Ok(());
    }
    Err(Refusal::Range((TaskSet::MOST_TASKS + interrupt) as u8))
}
