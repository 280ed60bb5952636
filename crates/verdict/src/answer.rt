// What the question "does this server pass with this reserve" answers.
// A reading is a length with the demand and the supply there.

#[derive(Clone, Copy)]
pub struct Reading {
    pub length: u64,
    pub demand: u64,
    pub supply: u64,
}

#[derive(Clone, Copy)]
pub enum Verdict {
    Yes(Reading),
    No(Reading),
}
