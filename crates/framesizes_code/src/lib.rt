// What follows from the table of frames: the widths and starts of fields, and the lengths of lines.
#![tactic(auto)]

ghost use Rattle.std.specs.Prelude.{◌≡◌, ◌<◌, ◌≤◌};
ghost use Rattle.frames.specs.Table.{width_of, field_start, length_of, most_fields};

use frames::table::{Frame, MOST_FIELDS};
use frames_code::row_of;

// The width of a field in digits.
pub fn width(frame: Frame, field: usize) -> usize
    requires { field < most_fields }
    ensures { result ≡ width_of frame field }
{
    let row = row_of(frame);
    let widths = row.widths;
    widths[field] as usize
}

// Where a field starts in its line; past the last field the line ends.
pub fn field_start(frame: Frame, field: usize) -> usize
    requires { field ≤ most_fields }
    ensures { result ≡ field_start frame field }
{
    let line = row_of(frame);
    let starts = line.starts;
    starts[field] as usize
}

// The digits of a line, its LF not counted.
pub fn length(frame: Frame) -> usize
    ensures { result ≡ length_of frame }
{
    field_start(frame, MOST_FIELDS)
}
