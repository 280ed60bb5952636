// Asks a question of the task file on standard input: who runs on a processor at a tick, or does a server pass with a reserve.
// The question stands in the arguments; what is printed is `line_for` of askwords' specs/Question.antt. Failures are told on standard error.
#![tactic(auto)]

use askwords::{Question, answer, asked};
use refusals::Written;
use shell::argument::{argument, has_argument};
use shell::failure::tell_failure;
use shell::front::front;
use shell::input::{BUFFER, read_input};
use std::env::Env;

// The question in the three arguments. One that is missing or too long is empty, and so unclear.
fn question<E: Env>(environment: &E) -> Question {
    if !has_argument(environment, 3) || has_argument(environment, 4) {
        return Question::Unclear;
    }
    let mut word = [0u8; BUFFER];
    let mut first = [0u8; BUFFER];
    let mut second = [0u8; BUFFER];
    let w = argument(environment, 1, &mut word);
    let f = argument(environment, 2, &mut first);
    let s = argument(environment, 3, &mut second);
    asked(&word[..w], &first[..f], &second[..s])
}

fn main(rt: HostRuntime) {
    let question = question(&rt);
    if let Question::Unclear = question {
        let _ = eprintln!(rt;
            "usage: ask who PROCESSOR TICK, or ask pass SERVER RESERVE, with a task file on standard input"
        );
        return;
    }
    let mut text = [0u8; BUFFER];
    let n = match read_input(&mut rt.stdin(), &mut text) {
        Ok(n) => n,
        Err(error) => {
            tell_failure(&rt, "ask: standard input", &error);
            return;
        }
    };
    let mut out = [0u8; BUFFER];
    let Ok(k) = answer(question, front(&text, n), &mut out) else {
        let _ = eprintln!(rt; "ask: no room for the answer");
        return;
    };
    if let Err(error) = rt.write_all(front(&out, k)) {
        tell_failure(&rt, "ask: standard output", &error);
    }
}
