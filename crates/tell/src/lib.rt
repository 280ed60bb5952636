// Numbers into lent memory, with a status: 0, or a refusal as one number.
// What they are stands in told/specs/Told.antt.
#![tactic(auto)]

ghost use Rattle.std.specs.Prelude.{◌≡◌, Ok};
ghost use Rattle.told.specs.Told.{status_of, told_of, leaves_numbers};

use refusals::{Outcome, Refusal};
use store::store;
use told_code::code;

// Puts the numbers at the answer's start; ROOM and nothing stored where it has fewer places.
pub fn put_numbers(answer: &mut [u64], numbers: &[u64]) -> u64
    ensures value { result ≡ status_of (told_of (Ok tt) numbers.now answer.old) }
    ensures answer_after { answer.new ≡ leaves_numbers (told_of (Ok tt) numbers.now answer.old) numbers.now answer.old }
{
    if answer.len() < numbers.len() {
        return code(Refusal::Room);
    }
    store(answer, 0, numbers);
    0
}

// The same for an answer of this outcome: a refusal's own status, and nothing stored.
pub fn tell(answer: &mut [u64], numbers: &[u64], outcome: Outcome) -> u64
    ensures value { result ≡ status_of (told_of outcome numbers.now answer.old) }
    ensures answer_after { answer.new ≡ leaves_numbers (told_of outcome numbers.now answer.old) numbers.now answer.old }
{
    match outcome {
        Ok(()) => put_numbers(answer, numbers),
        Err(refusal) => code(refusal),
    }
}
