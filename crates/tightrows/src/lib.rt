// Rows 7 and 8 of the refusals, each over all tasks of a set; row 8 by each task's own cache cost.
// Types, definitions and laws; the code stands in tightrows_code.
#![tactic(auto)]

// A row that is tried on each task: 7 SLOT or 8 TIGHT.
#[derive(Clone, Copy)]
pub enum TaskRow {
    Slot,
    Tight,
}
