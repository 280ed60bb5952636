// The names of a list that comes in parts: the name at hand, cut at the next LF.
// Types, definitions and laws; the code stands in names_code.
#![tactic(auto)]

// Where the name at hand ends in a part of the list, or else the part, and how many of its bytes are held.
#[derive(Clone, Copy)]
pub struct Cut {
    pub end: usize,
    pub held: usize,
}
