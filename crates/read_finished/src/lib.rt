// How the reading of a task file ends: behind its tasks the 07 lines, COUNT where there is no task, rows 5 and 6; and what is answered, the
// set or a refusal with the all-zero set.
#![tactic(auto)]

ghost use Rattle.std.specs.Prelude.{◌≡◌, []};
ghost use Rattle.tasks.specs.Set.{set_of};
ghost use Rattle.taskfile.specs.File.{file_header, tasks_among, interrupts_among};
ghost use Rattle.taskfile.specs.Taken.{BehindTasks};
ghost use Rattle.taskread.specs.Read.{answer, read_of};

use interruptlines_code::interrupt_lines;
use rangerows::figures;
use refusals::{Outcome, Refusal};
use taskread::read::ReadAnswer;
use tasks::set::TaskSet;

// The set, or with a refusal the all-zero set.
pub fn answered(outcome: Outcome, set: TaskSet) -> ReadAnswer
    ensures { result ≡ answer outcome set }
{
    match outcome {
        Ok(()) => ReadAnswer {
            outcome: Ok(()),
            set,
        },
        Err(refusal) => {
            let none = TaskSet::zero();
            ReadAnswer {
                outcome: Err(refusal),
                set: none,
            }
        }
    }
}

// Behind the tasks, which these are: the 07 lines, COUNT where there is no task, then rows 5 and 6.
pub fn finished(text: &[u8], at: usize, lines: usize, tasks: TaskSet) -> ReadAnswer
    requires behind_tasks { BehindTasks text.now lines at }
    requires lines_value { interrupts_among text.now lines ≡ [] }
    requires tasks_value { tasks ≡ set_of (file_header text.now) (tasks_among text.now lines) [] }
    ensures { result ≡ read_of text.now }
{
    let mut set = tasks;
    let rest = interrupt_lines(text, at, lines);
    let outcome = rest.outcome;
    let behind = rest.lines;
    let Ok(()) = outcome else {
        return answered(outcome, set);
    };
    let empty = set.count == 0;
    if empty {
        let place = (behind + 1) as u8;
        return answered(Err(Refusal::Count(place)), set);
    }
    let interrupts = rest.interrupts;
    set.interrupts = interrupts;
    answered(figures(set), set)
}
