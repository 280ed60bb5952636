// What a task brings into a server, and what a server's loads ask of the horizon.
// Types, definitions and laws; the code stands in share_of and shares_code.
#![tactic(auto)]

// A task's work without cache cost and its jobs in the horizon, its cache cost, and its effective deadline; or those of a server, with the
// smallest deadline.
#[derive(Clone, Copy)]
pub struct Share {
    pub work: u64,
    pub jobs: u64,
    pub cache: u64,
    pub due: u64,
}
