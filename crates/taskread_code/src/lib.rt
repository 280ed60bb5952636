// Reading a task file: the set, or the refusal and the all-zero set.
// Lines are taken in order, then rows 5 and 6 of the figures.
#![tactic(auto)]

ghost use Rattle.std.specs.Prelude.{◌≡◌};
ghost use Rattle.taskread.specs.Read.{read_of};

use headerline_code::header_line;
use lineanswer::of_line;
use opening_code::opened;
use read_finished::{answered, finished};
use tasklines_code::task_lines;
use taskread::read::ReadAnswer;
use tasks::set::TaskSet;

pub fn read(text: &[u8]) -> ReadAnswer
    ensures { result ≡ read_of text.now }
{
    let first = header_line(text);
    let Ok(header) = first else {
        return answered(of_line(first), TaskSet::zero());
    };
    let listed = task_lines(text, opened(text, header));
    let outcome = listed.outcome;
    let tasks = listed.set;
    let Ok(()) = outcome else {
        return answered(outcome, tasks);
    };
    finished(text, listed.at, listed.lines, tasks)
}
