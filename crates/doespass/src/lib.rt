// The question does a server pass with a reserve, about a set and its plan.
// Types, definitions and laws; the code stands in doespass_code and pass_made.
#![tactic(auto)]

use refusals::Outcome;
use verdict::answer::Verdict;

// A refused question holds a yes of zeros, which says nothing.
#[derive(Clone, Copy)]
pub struct PassAnswer {
    pub outcome: Outcome,
    pub verdict: Verdict,
}
