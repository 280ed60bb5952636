// Reads a task file on standard input and prints its plan, or one 1F line, on standard output.
// What it prints is `answered` of planfile's specs/Tool.antt. A failure to read or write is told on standard error.
#![tactic(auto)]

use refusals::Written;
use shell::failure::tell_failure;
use shell::front::front;
use shell::input::{BUFFER, read_input};

fn main(rt: HostRuntime) {
    let mut text = [0u8; BUFFER];
    let n = match read_input(&mut rt.stdin(), &mut text) {
        Ok(n) => n,
        Err(error) => {
            tell_failure(&rt, "rota: standard input", &error);
            return;
        }
    };
    let mut out = [0u8; BUFFER];
    let Ok(k) = planfile_code::answer(front(&text, n), &mut out) else {
        let _ = eprintln!(rt; "rota: no room for the plan");
        return;
    };
    if let Err(error) = rt.write_all(front(&out, k)) {
        tell_failure(&rt, "rota: standard output", &error);
    }
}
