// The 05 line and the 06 line of a task file, where the set has them: the length of each, and each written.
#![tactic(auto)]

ghost use Rattle.std.specs.Prelude.{◌≡◌, ◌+◌, ◌≤◌, length as bytes};
ghost use Rattle.digits.specs.Stored.{stored};
ghost use Rattle.frames.specs.Table.{fields_in};
ghost use Rattle.optionallines.specs.Lines.{optional_line};

use framelines_code::lines_length;
use frames::table::Frame;
use framewrite_code::put_line;

// The bytes of the line of this frame, where there is one.
pub fn optional_length(frame: Frame, figure: Option<u16>) -> usize
    ensures { result ≡ bytes (optional_line frame figure) }
{
    match figure {
        Some(_) => lines_length(frame, 1),
        None => 0,
    }
}

// Writes the line of this frame, where there is one.
pub fn put_optional(out: &mut [u8], at: usize, frame: Frame, figure: Option<u16>)
    requires frame_bound { fields_in frame ≤ 1 }
    requires figure_bound { at + bytes (optional_line frame figure) ≤ bytes out.old }
    ensures { out.new ≡ stored out.old at (optional_line frame figure) }
{
    if let Some(given) = figure {
        let values = [given as u64];
        put_line(out, at, frame, &values);
    }
}
