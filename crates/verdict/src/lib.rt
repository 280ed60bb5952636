// Whether a server passes with a reserve: the search for a length at which demand exceeds supply.
// Types, definitions and laws; the code stands in verdict_code.
#![tactic(auto)]

pub mod answer; // answer.rt: yes or no, with a reading
