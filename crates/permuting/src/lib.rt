// The order of a server's members changes nothing of what the server asks.
// Laws alone.
#![tactic(auto)]
