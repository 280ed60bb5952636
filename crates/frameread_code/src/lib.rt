// The frame of the line at a place in a text, and the values of its fields.
#![tactic(auto)]

ghost use Rattle.std.specs.Prelude.{◌≡◌, true, ◌<◌, ◌≤◌, length as count, drop};
ghost use Rattle.frames.specs.Table.{most_fields};
ghost use Rattle.frameread.specs.Line.{formed, field_of, kind_at};

use digitread::number_at;
use frames::table::{Frame, KINDS};
use frames_code::FRAMES;
use framesizes_code::{field_start, width};
use is_line::is_line;

// The frame whose line the text from `at` on starts with.
pub fn kind_at(text: &[u8], at: usize) -> Option<Frame>
    requires { at ≤ count text.now }
    ensures { result ≡ kind_at (drop at text.now) }
{
    for i in 0..KINDS {
        let frame = FRAMES[i];
        if is_line(text, at, frame) {
            return Some(frame);
        }
    }
    None
}

// The value of a field of the line at `at`.
pub fn field(text: &[u8], at: usize, frame: Frame, field: usize) -> u64
    requires at_bound { at ≤ count text.now }
    requires text_value { formed frame (drop at text.now) ≡ true }
    requires field_lt_most_fields { field < most_fields }
    ensures { result ≡ field_of frame field (drop at text.now) }
{
    let start = at + field_start(frame, field);
    number_at(text, start, width(frame, field))
}
