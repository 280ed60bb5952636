// A server of a plan: its tasks' places in file order, its reserve, where it stands on the ring, and the cache cost that it is charged by.
// Unused room is zero.
use ring::clock::Position;
use tasks::set::TaskSet;

#[derive(Clone, Copy)]
pub struct Server {
    pub count: usize,
    pub places: [u8; TaskSet::MOST_TASKS],
    pub reserve: u64,
    pub start: Position,
    pub cache: u64,
}
