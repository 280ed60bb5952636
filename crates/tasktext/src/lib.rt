// What the text of a task set is, and the lines of its tasks, each an 02 or an 03 line, written one behind the other.
// Definitions and laws; the code stands in tasktext_code.
#![tactic(auto)]
