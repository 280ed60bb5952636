// What failed, and why, in a line on standard error. No contract can say what is printed.
ghost use Rattle.std.specs.Prelude.{◌≤◌, length};

use std::io;
use std::io::Write;
use std::str::from_utf8;

// The most bytes of a reason that is told.
const REASON: usize = 256;

// Tells what failed, a colon and the reason. The system's number for it, which stands behind the reason's words, is left out.
pub fn tell_failure<E: Eprint>(rt: &E, what: &str, error: &io::Error) {
    let mut text = [0u8; REASON];
    let n = put_reason(error, &mut text);
    let told = from_utf8(&text[..n]).unwrap_or("");
    let reason = match told.split_once(" (os error ") {
        Some((words, _)) => words,
        None => told,
    };
    let _ = eprintln!(rt; "{what}: {reason}");
}

// Puts as much of the reason at the start of a buffer as has room there, and returns how many bytes that are.
fn put_reason(error: &io::Error, mut room: &mut [u8]) -> usize
    ensures { result ≤ length room.old }
{
    let all = room.len();
    let _ = write!(room, "{error}");
    all.saturating_sub(room.len())
}
