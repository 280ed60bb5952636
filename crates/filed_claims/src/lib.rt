// No code of its own: what holds of the plan of every accepted task file, with nothing else asked; and that unused room never shows.
#![tactic(auto)]
