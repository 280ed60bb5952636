// What the lines of a task file are and answer. No code.
#![tactic(auto)]
