// The interrupts of a set by processor.
// Definitions and laws; the code stands in byprocessor_code.
#![tactic(auto)]
