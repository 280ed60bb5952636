// The packing rules: in which order tasks are placed, and which of the servers that take a task it joins.
// Types, definitions and laws; the code stands in sorting and turns_code.
#![tactic(auto)]

// The order in which tasks are placed: that of the file, or by load.
#[derive(Clone, Copy)]
pub enum Order {
    File,
    Falling,
    Rising,
}

// The server that a task joins: the first that takes it, or the one with the least room, or with the most.
#[derive(Clone, Copy)]
pub enum Fit {
    First,
    Best,
    Worst,
}
