// The 07 lines of a task file, from the line behind its tasks to the end of the text or to the first line that is refused.
// Types, definitions and laws; the code stands in interruptlines_code.
#![tactic(auto)]

use refusals::Outcome;
use tasks::set::Interrupts;

// How reading them ended, the interrupts, and the number of lines taken so far.
#[derive(Clone, Copy)]
pub struct InterruptLines {
    pub outcome: Outcome,
    pub interrupts: Interrupts,
    pub lines: usize,
}
