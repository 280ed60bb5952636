// The ring: ticks and positions, the phase rule, which reserve covers a position, and who runs.
// Types, definitions and laws; the code stands in ring_code and ring_who.
#![tactic(auto)]

pub mod clock;
pub mod cover;
