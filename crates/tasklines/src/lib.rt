// The 02 and 03 lines of a task file, from the line behind its opening to the first 07 line, to the end of the text or to the first line that is refused.
// Types, definitions and laws; the code stands in tasklines_code.
#![tactic(auto)]

use refusals::Outcome;
use tasks::set::TaskSet;

// How reading them ended, the set, the cursor behind the lines taken so far, and their number.
#[derive(Clone, Copy)]
pub struct TaskLines {
    pub outcome: Outcome,
    pub set: TaskSet,
    pub at: usize,
    pub lines: usize,
}
