// What the tool answered before a request, and that old files and old sets still get exactly that. No code.
#![tactic(auto)]
