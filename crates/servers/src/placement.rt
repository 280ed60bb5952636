// Placing by the packing rule of the file: the servers of all tasks.
// What they mean stands in specs/Placement.antt.
use tasks::set::TaskSet;

// How many servers there are, the server of each task, and the cache cost of each server.
#[derive(Clone, Copy)]
pub struct Placed {
    pub count: u64,
    pub placement: [u64; TaskSet::MOST_TASKS],
    pub cache: [u64; TaskSet::MOST_TASKS],
}
