// The question who runs on a processor at a tick, about a set and its plan.
// Types, definitions and laws; the code stands in who_made and whoruns_code.
#![tactic(auto)]

use refusals::Outcome;

#[derive(Clone, Copy)]
pub struct WhoAnswer {
    pub outcome: Outcome,
    pub server: u64,
    pub left: u64,
}
