// The refusals of documents 01 and 02 as one enum, each with what its place needs.
// Types, definitions and laws; the code stands in refusals_code.
#![tactic(auto)]

#[derive(Clone, Copy)]
pub enum Refusal {
    Line(u8),
    Order(u8),
    Count(u8),
    Twice(u8),
    Board,
    Range(u8),
    Slot(u8),
    Tight(u8),
    Horizon,
    Full(u8),
    Ask,
    Room,
    Alone(u8),
}

// What is done, or refused.
pub type Outcome = Result<(), Refusal>;

// What a writer answers: how many bytes it wrote, or the refusal.
pub type Written = Result<usize, Refusal>;
