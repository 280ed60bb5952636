// The program's arguments, byte by byte as they were given.
ghost use Rattle.std.specs.Prelude.{◌≤◌, length};

use std::env::{Env, FillError};

// Whether there is an argument of this number. Argument 0 is the program's own name.
pub fn has_argument<E: Env>(environment: &E, number: usize) -> bool {
    let mut room = [0u8; 1];
    !matches!(
        environment.arg(number, &mut room),
        Err(FillError::NotPresent)
    )
}

// The argument of this number at the start of a buffer, and how many bytes it has: none where it is missing or too long.
pub fn argument<E: Env>(environment: &E, number: usize, buf: &mut [u8]) -> usize
    ensures { result ≤ length buf.old }
{
    match environment.arg(number, buf) {
        Ok(n) => n,
        Err(_) => 0,
    }
}
