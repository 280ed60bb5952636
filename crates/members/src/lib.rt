// What a server loses at each entry, and the horizon of its loads and of interrupts with the slot.
// Definitions and laws; the code stands in members_code and multiple_of.
#![tactic(auto)]
