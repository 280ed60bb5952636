// Row 5 of the refusals, over a board's figures, and row 6, over those of one task or one interrupt.
#![tactic(auto)]

ghost use Rattle.std.specs.Prelude.{◌≡◌};
ghost use Rattle.taskrows.specs.Rows.{board_row, out_of_range, range_row, interrupt_row};

use tasks::set::{Header, Interrupt, Task, TaskSet};

// 5 BOARD.
pub fn breaks_board(header: Header) -> bool
    ensures { result ≡ board_row header }
{
    let no_processor = header.processors < 1;
    if no_processor {
        return true;
    }
    if TaskSet::MOST_PROCESSORS < header.processors {
        return true;
    }
    let no_slot = header.slot == 0;
    if no_slot {
        return true;
    }
    TaskSet::LAST_RULE < header.rule_number()
}

// Figures that break 1 ≤ C ≤ D ≤ T ≤ 1,000,000.
fn out_of_range(cost: u32, deadline: u32, period: u32) -> bool
    ensures { result ≡ out_of_range cost deadline period }
{
    if cost < 1 {
        return true;
    }
    let over = deadline < cost;
    if over {
        return true;
    }
    if period < deadline {
        return true;
    }
    TaskSet::LONGEST_PERIOD < period
}

// 6 RANGE of a task.
pub fn breaks_range(task: Task) -> bool
    ensures { result ≡ range_row task }
{
    out_of_range(task.cost, task.deadline, task.period)
}

// 6 RANGE of an interrupt on a board with so many processors.
pub fn breaks_interrupt(processors: u8, interrupt: Interrupt) -> bool
    ensures { result ≡ interrupt_row processors interrupt }
{
    if out_of_range(interrupt.cost, interrupt.deadline, interrupt.period) {
        return true;
    }
    let jitter = interrupt.jitter as u32;
    if interrupt.deadline <= jitter {
        return true;
    }
    if interrupt.processor < 1 {
        return true;
    }
    processors < interrupt.processor
}
