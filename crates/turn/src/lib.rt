// A turn of the ring: what a walk through it goes by. What switches it has stands in specs/Switches.antt; there is no code here.
#![tactic(auto)]

// A ring that is laid: the number of servers, the slot, the ring processors, the idle positions.
#[derive(Clone, Copy)]
pub struct Turn {
    pub servers: usize,
    pub slot: u64,
    pub ring: u64,
    pub idle: u64,
}
