// Which values the fields of a frame can carry, by the table of frames.
#![tactic(auto)]

ghost use Rattle.std.specs.Prelude.{◌≡◌, ◌≤◌, length as count};
ghost use Rattle.frames.specs.Table.{fields_in};
ghost use Rattle.framesizes.specs.Overflow.{line_overflows};

use digitwrite::too_large;
use frames::table::Frame;
use frames_code::row_of;

// The number of a frame's fields.
pub fn fields_in(frame: Frame) -> usize
    ensures { result ≡ fields_in frame }
{
    let own = row_of(frame);
    own.fields
}

// Whether one of a line's values is too large for its field.
pub fn overflows(frame: Frame, values: &[u64]) -> bool
    requires { fields_in frame ≤ count values.now }
    ensures { result ≡ line_overflows frame values.now }
{
    let row = row_of(frame);
    row.widths[..fields_in(frame)]
        .iter()
        .zip(values)
        .any(|(width, value)| too_large(*width as usize, *value))
}
