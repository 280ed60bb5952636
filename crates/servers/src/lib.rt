// Placing: from tasks to servers, by the packing rule of the file.
// Types, definitions and laws; the code stands in placed_in, placed_in_turn and servers_code.
#![tactic(auto)]

pub mod placement; // placement.rt: the servers of all tasks
