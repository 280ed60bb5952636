// Reads each task file that the arguments name, good and damaged, writes it again where it was read, and prints each answer.
// The gate holds what it prints to the file stdout, which was made by the independent program of tests/.
#![tactic(auto)]

use refusals::{Refusal, Written};
use shell::argument::{argument, has_argument};
use shell::failure::tell_failure;
use shell::front::front;
use shell::input::{BUFFER, read_input};
use std::env::Env;
use std::fs::{Files, open};
use std::io;
use std::str::from_utf8;
use tasks::set::TaskSet;

fn say_refusal<P: Print>(rt: &P, refusal: Refusal) -> io::Result<()> {
    let number = refusals_code::number(refusal);
    let place = refusals_code::place(refusal);
    println!(rt; "refusal {number} at {place}")
}

fn say_same<P: Print>(rt: &P, same: bool) -> io::Result<()> {
    if same {
        println!(rt; "read, written again the same")
    } else {
        println!(rt; "read, written again otherwise")
    }
}

fn say_written<P: Print>(rt: &P, set: TaskSet, text: &[u8]) -> io::Result<()> {
    let mut again = [0u8; BUFFER];
    match taskwrite_code::write(set, &mut again) {
        Ok(n) => say_same(rt, front(&again, n) == text),
        Err(refusal) => {
            print!(rt; "read, not written: ")?;
            say_refusal(rt, refusal)
        }
    }
}

fn try_text<P: Print>(rt: &P, text: &[u8]) -> io::Result<()> {
    let answer = taskread_code::read(text);
    match answer.outcome {
        Ok(()) => say_written(rt, answer.set, text),
        Err(refusal) => say_refusal(rt, refusal),
    }
}

// A file that can't be opened or read is told on standard error, and the next one is tried.
fn try_file<T: Files + Print + Eprint>(rt: &T, name: &str) -> io::Result<()> {
    let mut file = match open(rt, name) {
        Ok(file) => file,
        Err(error) => {
            tell_failure(rt, name, &error);
            return Ok(());
        }
    };
    let mut text = [0u8; BUFFER];
    let n = match read_input(&mut file, &mut text) {
        Ok(n) => n,
        Err(error) => {
            tell_failure(rt, name, &error);
            return Ok(());
        }
    };
    print!(rt; "{name}: ")?;
    try_text(rt, front(&text, n))
}

// The argument of this number, a file's name. A name is text: bytes that are none name no file.
fn try_named<T: Env + Files + Print + Eprint>(rt: &T, number: usize) -> io::Result<()> {
    let mut word = [0u8; BUFFER];
    let n = argument(rt, number, &mut word);
    match from_utf8(&word[..n]) {
        Ok(name) => try_file(rt, name),
        Err(_) => eprintln!(rt; "tried: argument {number} is no text"),
    }
}

fn main(rt: HostRuntime) -> io::Result<()> {
    for number in 1..usize::MAX {
        if !has_argument(&rt, number) {
            break;
        }
        try_named(&rt, number)?;
    }
    Ok(())
}
