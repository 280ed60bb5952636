// No code of its own: every accepted plan prints a rota that stands, so that the note's demand 3 holds of its figures.
#![tactic(auto)]
