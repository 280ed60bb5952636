// A task file taken to what its rows say, and to its outcome: the first steps to its set and its plan, and whether it has them.
// What it means stands in filerows/specs/Read.antt and taskplan/specs/File.antt.
#![tactic(auto)]

ghost use Rattle.std.specs.Prelude.{◌≡◌};
ghost use Rattle.taskplan.specs.File.{filed_of};
ghost use Rattle.filerows.specs.Read.{read_rows};

use planner_code::{rows_of, settle};
use refusals::{Outcome, Refusal};
use taskread::read::ReadAnswer;
use taskread_code::read;

// What the rows say of a file that was read.
pub fn rows_read(answer: ReadAnswer) -> Result<u64, Refusal>
    ensures { result ≡ read_rows answer }
{
    let outcome = answer.outcome;
    match outcome {
        Ok(()) => rows_of(answer.set),
        Err(refusal) => Err(refusal),
    }
}

// Whether a file has a plan, or its refusal. No plan is laid.
pub fn outcome_of(text: &[u8]) -> Outcome
    ensures { result ≡ (filed_of text.now).outcome }
{
    let answer = read(text);
    let rows = rows_read(answer);
    let made = settle(answer.set, rows);
    made.outcome
}
