// What is known of a set before its plan is laid: what its rows say, and its servers or the refusal that it meets.
// Types, definitions and laws; the code stands in planned and planner_code.
#![tactic(auto)]

use refusals::Outcome;
use sizing::Servers;

// The servers stand first: what is compiled then holds them once (docs/SPEED.md).
#[derive(Clone, Copy)]
pub struct Settled {
    pub servers: Servers,
    pub outcome: Outcome,
}
