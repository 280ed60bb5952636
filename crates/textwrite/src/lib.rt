// The text of a task set: one 01 line, the 05 line and the 06 line where the set has them, then the lines of the tasks and the 07 lines, each in file order.
#![tactic(auto)]

ghost use Rattle.std.specs.Prelude.{◌≡◌, ◌≤◌, length as bytes};
ghost use Rattle.digits.specs.Stored.{stored};
ghost use Rattle.tasks.specs.Set.{most_tasks, most_interrupts};
ghost use Rattle.tasktext.specs.Text.{text_of};

use framelines_code::lines_length;
use frames::table::Frame;
use framewrite_code::put_line;
use optionallines_code::{optional_length, put_optional};
use put_interrupts::put_interrupts;
use tasks::set::TaskSet;
use tasktext_code::put_tasks;
use taskvalues::header_values;

// Writes the text of a set into a buffer that has the room.
pub fn put_text(out: &mut [u8], set: TaskSet)
    requires count_le_most_tasks { set.count ≤ most_tasks }
    requires count_le_most_interrupts { set.interrupts.count ≤ most_interrupts }
    requires set_bound { bytes (text_of set) ≤ bytes out.old }
    ensures { out.new ≡ stored out.old 0 (text_of set) }
{
    let header = set.header;
    let first = header_values(header);
    put_line(out, 0, Frame::Header, &first);
    let second = lines_length(Frame::Header, 1);
    let masked = header.masked;
    put_optional(out, second, Frame::Masked, masked);
    let next = second + optional_length(Frame::Masked, masked);
    let rule = header.rule;
    put_optional(out, next, Frame::Rule, rule);
    let at = next + optional_length(Frame::Rule, rule);
    let behind = put_tasks(out, at, set);
    put_interrupts(out, behind, set.interrupts);
}
