// No code of its own: what is promised of the texts, of the whole tool and of the questions of a file, and the examples of document 01.
#![tactic(auto)]
