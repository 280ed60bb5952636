// Writing a task set as a file, at the start of a lent buffer.
// Row 11 comes before row 12, and a refused write stores nothing.
#![tactic(auto)]

ghost use Rattle.taskwrite.specs.Write.{Wrote};

use refusals::{Refusal, Written};
use tasks::set::TaskSet;
use textlength::text_length;
use textwrite::put_text;
use writer_asks::writer_asks;

// The bytes written, or the refusal.
pub fn write(set: TaskSet, out: &mut [u8]) -> Written
    ensures { Wrote set out.old result out.new }
{
    if writer_asks(set) {
        return Err(Refusal::Ask);
    }
    let needed = text_length(set);
    let short = out.len() < needed;
    if short {
        return Err(Refusal::Room);
    }
    put_text(out, set);
    Ok(needed)
}
