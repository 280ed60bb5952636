// Sizing: the smallest reserve of each server of a placement; and placing and sizing in one.
// Types, definitions and laws; the code stands in reserve_of and sizing_code.
#![tactic(auto)]

use tasks::set::TaskSet;

// The server of each task in file order, and the cache cost and the reserve of each server; servers count from 1, unused room is zero.
#[derive(Clone, Copy)]
pub struct Servers {
    pub count: u64,
    pub placement: [u64; TaskSet::MOST_TASKS],
    pub cache: [u64; TaskSet::MOST_TASKS],
    pub reserve: [u64; TaskSet::MOST_TASKS],
}
