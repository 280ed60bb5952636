// The lines of a plan, one kind after the other, and the line of a refusal, put by the table of frames.
// Definitions and laws; the code stands in planlines_code and put_plan.
#![tactic(auto)]
