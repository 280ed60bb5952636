// No code of its own: the note's demand 3 over any standing rota, whatever placed its tasks and whatever its servers demand.
#![tactic(auto)]
