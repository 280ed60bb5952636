// The reader of task files: the set of any bytes, or the first refusal.
// Types, definitions and laws; the code stands in read_finished and taskread_code.
#![tactic(auto)]

pub mod read;
