// The sweep of a list of names that comes in parts: each name is counted where it ends.
// Types, definitions and laws; the code stands in sweeping_code.
#![tactic(auto)]

use tally::Tally;

// The bytes held of the name at hand, and the names counted.
#[derive(Clone, Copy)]
pub struct Sweep {
    pub held: usize,
    pub tally: Tally,
}
