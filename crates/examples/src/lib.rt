// No code of its own: examples A to L of document 01, each with its question and its answer, as one list under one statement.
#![tactic(auto)]
