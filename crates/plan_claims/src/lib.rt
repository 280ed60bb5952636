// No code of its own: what is promised of planning, of the check of a plan and of the two questions.
#![tactic(auto)]
