// The line of one switch: what begins on a ring processor at a tick, and its line.
// Types, definitions and laws; the code stands in switchline_code.
#![tactic(auto)]

// Where the line of a switch ends, and what is carried past it: the server that begins, and until when it runs.
#[derive(Clone, Copy)]
pub struct Switched {
    pub at: usize,
    pub server: u64,
    pub until: u64,
}
