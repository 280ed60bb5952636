// No code of its own: what is promised of the switches of a turn.
#![tactic(auto)]
