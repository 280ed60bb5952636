// A tick of the clock and a position on the ring are types of their own: only the phase rule leads from one to the other.

#[derive(Clone, Copy)]
pub struct Tick(pub u64);

#[derive(Clone, Copy, PartialEq, Eq)]
pub struct Position(pub u64);
