// Demand and supply of a server at one length.
// Definitions and laws; the code stands in demand_at and demand_code.
#![tactic(auto)]
