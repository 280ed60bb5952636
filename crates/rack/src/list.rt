// The switch list of a task file into lent memory, and its number of bytes.
// A status of 0 says that they stand there; any other is the refusal, and the memory is as before.
ghost use Rattle.std.specs.Prelude.{◌≡◌, Err};
ghost use Rattle.refusals.specs.First.{first_of};
ghost use Rattle.refusals.specs.declared.Refusal.TheVariants.{Room};
ghost use Rattle.taskplan.specs.File.{filed_of};
ghost use Rattle.told.specs.Told.{status_of, leaves_numbers};
ghost use Rattle.rack.specs.Rack.{list_numbers, list_told, list_leaves};

use refusals::{Refusal, Written};
use switchfile_code::list;
use taskplan_code::outcome_of;
use told_code::code;

// Without a place for the number: the file's own refusal, else ROOM.
fn no_place(tasks: &[u8]) -> u64
    ensures { result ≡ status_of (first_of (filed_of tasks.now).outcome (Err Room)) }
{
    let outcome = outcome_of(tasks);
    match outcome {
        Ok(()) => code(Refusal::Room),
        Err(own) => code(own),
    }
}

// The 21 lines at the start of `out`, and their number of bytes in `answer`. switchlist_code::LONGEST bytes always suffice.
pub fn rack_switches(tasks: &[u8], out: &mut [u8], answer: &mut [u64]) -> u64
    ensures value { result ≡ status_of (list_told tasks.now out.old answer.old) }
    ensures out_after { out.new ≡ list_leaves tasks.now out.old answer.old }
    ensures answer_after { answer.new ≡ leaves_numbers (list_told tasks.now out.old answer.old) (list_numbers tasks.now) answer.old }
{
    if answer.len() == 0 {
        return no_place(tasks);
    }
    let written = list(tasks, out);
    match written {
        Ok(n) => {
            answer[0] = n as u64;
            0
        }
        Err(refusal) => code(refusal),
    }
}
