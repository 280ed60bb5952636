// Row 11 before a task set is written: the set breaks row 3, 4, 5 or 6, or holds what no file's lines can carry.
#![tactic(auto)]

ghost use Rattle.std.specs.Prelude.{◌≡◌};
ghost use Rattle.taskwrite.specs.Write.{writer_asks};

use askrow::asks;
use rangerows::{first_interrupt_out, first_out_of_range};
use taskrows_code::breaks_board;
use tasks::set::TaskSet;

// 11 ASK of the task writer.
pub fn writer_asks(set: TaskSet) -> bool
    ensures { result ≡ writer_asks set }
{
    if asks(set) {
        return true;
    }
    let header = set.header;
    if breaks_board(header) {
        return true;
    }
    let task = first_out_of_range(set);
    let broken = task != 0;
    if broken {
        return true;
    }
    let interrupt = first_interrupt_out(header.processors, set.interrupts);
    interrupt != 0
}
