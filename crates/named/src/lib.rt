// The server and the reserve that a question names: is the server there, is the reserve allowed.
// Definitions and laws; the code stands in named_code.
#![tactic(auto)]
