// The two questions of a task file, answered by numbers in lent memory.
// A status of 0 says that the answer stands there; any other is the refusal, and the memory is as before.
ghost use Rattle.std.specs.Prelude.{◌≡◌};
ghost use Rattle.told.specs.Told.{status_of, leaves_numbers};
ghost use Rattle.rack.specs.Rack.{who_numbers, who_told, pass_numbers, pass_told};

use askfile_code::{pass_in, who_in};
use ring::clock::Tick;
use tell::tell;
use told_code::numbers_of;

// Who runs on a processor at a tick: the server, 0 for idle, and the ticks left.
pub fn rack_who(tasks: &[u8], processor: u64, tick: u64, answer: &mut [u64]) -> u64
    ensures value { result ≡ status_of (who_told tasks.now processor tick answer.old) }
    ensures answer_after { answer.new ≡ leaves_numbers (who_told tasks.now processor tick answer.old) (who_numbers tasks.now processor tick) answer.old }
{
    let who = who_in(tasks, processor, Tick(tick));
    let numbers = [who.server, who.left];
    let outcome = who.outcome;
    tell(answer, &numbers, outcome)
}

// Does a server pass with a reserve.
pub fn rack_pass(tasks: &[u8], server: u64, reserve: u64, answer: &mut [u64]) -> u64
    ensures value { result ≡ status_of (pass_told tasks.now server reserve answer.old) }
    ensures answer_after { answer.new ≡ leaves_numbers (pass_told tasks.now server reserve answer.old) (pass_numbers tasks.now server reserve) answer.old }
{
    let pass = pass_in(tasks, server, reserve);
    let verdict = pass.verdict;
    let numbers = numbers_of(verdict);
    let outcome = pass.outcome;
    tell(answer, &numbers, outcome)
}
