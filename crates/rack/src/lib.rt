// The rack tool for programs in C and Rust: four functions on lent memory. Crate rack_c exports them, declared for C in include/rack.h.
// Each answers every input; what it answers stands in specs/Rack.antt.
#![tactic(auto)]

pub mod answers; // answers.rt: who runs, and does a server pass
pub mod list; // list.rt: the switch list
pub mod text; // text.rt: the text of a plan
