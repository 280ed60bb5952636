// The writer of task files: the text of any set, or a refusal.
// Definitions and laws; the code stands in taskwrite_code and writer_asks.
#![tactic(auto)]
