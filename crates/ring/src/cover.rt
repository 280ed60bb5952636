// The server whose reserve covers a position, and the ticks to that reserve's end.
// Server 0 is the idle stretch at the ring's end.

#[derive(Clone, Copy, PartialEq, Eq)]
pub struct Stand {
    pub server: u64,
    pub left: u64,
}
