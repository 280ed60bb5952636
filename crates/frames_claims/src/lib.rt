// No code of its own: what is promised of frames, the table and its lines read and written, and its proofs.
#![tactic(auto)]
