// Reads a list of file names on standard input and prints how many were accepted and how many met each refusal number.
// What is counted stands in sweeplist's specs/Swept.antt, what is printed is `tally_text` of tallytext's specs/Text.antt. A list that
// can't be read and a report that can't be written are told on standard error, and so is progress where it is asked for.
#![tactic(auto)]

use refusals::Written;
use shell::argument::{argument, has_argument};
use shell::failure::tell_failure;
use shell::front::front;
use shell::input::BUFFER;
use std::env::Env;
use std::io;
use sweeplist::sweep_list;
use tallytext_code::{BYTES, fit_tally};

// Whether the first argument asks for progress.
fn asks_progress<E: Env>(environment: &E) -> bool {
    let mut word = [0u8; BUFFER];
    let n = argument(environment, 1, &mut word);
    &word[..n] == b"--progress".as_slice()
}

fn main(rt: HostRuntime) {
    let progress = asks_progress(&rt);
    if has_argument(&rt, 2) || has_argument(&rt, 1) && !progress {
        let _ = eprintln!(rt;
            "usage: sweep [--progress], with a list of file names on standard input"
        );
        return;
    }
    let swept = sweep_list(&rt, &mut rt.stdin(), progress);
    if !swept.whole {
        let error = swept.failure.unwrap_or(io::Error::other("it does not end"));
        tell_failure(&rt, "sweep: standard input", &error);
        return;
    }
    let mut out = [0u8; BYTES];
    let Ok(k) = fit_tally(swept.tally, &mut out) else {
        let _ = eprintln!(rt; "sweep: no room for the report");
        return;
    };
    if let Err(error) = rt.write_all(front(&out, k)) {
        tell_failure(&rt, "sweep: standard output", &error);
    }
}
