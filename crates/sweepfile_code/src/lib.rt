// What became of a name: its file opened, read and taken to its outcome. What it means stands in sweepfile/specs/Answered.antt.
#![tactic(auto)]

ghost use Rattle.std.specs.Prelude.{◌≡◌, length};
ghost use Rattle.names.specs.Names.{longest_name};
ghost use Rattle.sweepfile.specs.Answered.{OfFile, AnsweredHeld};

use names_code::{LONGEST_NAME, find};
use refusals::Outcome;
use shell::front::front;
use shell::input::{BUFFER, read_input};
use std::fs::{Files, open};
use std::str::from_utf8;
use taskplan_code::outcome_of;

// The answer of the file at a path, read as the program `rota` reads its input. A path is text: bytes that are none name no file.
fn file_answer<F: Files>(files: &F, path: &[u8]) -> Option<Outcome>
    ensures { OfFile result }
{
    let path = from_utf8(path).ok()?;
    let mut file = open(files, path).ok()?;
    let mut text = [0u8; BUFFER];
    let input = read_input(&mut file, &mut text);
    drop(file);
    let n = input.ok()?;
    let outcome = outcome_of(front(&text, n));
    Some(outcome)
}

// The answer of the name of which so many bytes are held.
pub fn held_answer<F: Files>(files: &F, name: &[u8], held: usize) -> Option<Outcome>
    requires { length name.now ≡ longest_name }
    ensures { AnsweredHeld name.now held result }
{
    if held == 0 {
        return None;
    }
    if LONGEST_NAME < held {
        return None;
    }
    if find(name, 0, held, 0) < held {
        return None;
    }
    file_answer(files, &name[..held])
}
