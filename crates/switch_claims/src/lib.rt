// No code of its own: what is promised of the switch list of a plan and of a task file.
#![tactic(auto)]
