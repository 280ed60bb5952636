// The lines of a task file before its tasks: the 01 line, and behind it a 05 line and a 06 line, where there are such.
// Types, definitions and laws; the code stands in opening_code.
#![tactic(auto)]

use tasks::set::Header;

// The board's figures, the cursor behind the lines, and their number.
#[derive(Clone, Copy)]
pub struct Opening {
    pub header: Header,
    pub at: usize,
    pub lines: usize,
}

// What a line that may be there gives, the cursor behind it, and the number of lines up to there.
#[derive(Clone, Copy)]
pub struct OptionalLine {
    pub figure: Option<u16>,
    pub at: usize,
    pub lines: usize,
}
