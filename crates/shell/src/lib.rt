// What the programs share around the tool: an input into a buffer, the front of a buffer, the arguments, and a line on what failed.
#![tactic(auto)]

pub mod argument; // argument.rt: an argument into a buffer
pub mod failure; // failure.rt: what failed, told on standard error
pub mod front; // front.rt: the first bytes of a buffer
pub mod input; // input.rt: an input into a buffer
