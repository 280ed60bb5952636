// The reserves in server order, of which the first n count: their sums, their starts and the whole processors.
// Definitions and laws; the code stands in reserves_code and whole_server.
#![tactic(auto)]
