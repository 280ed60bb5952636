// Lines of a frame, written one behind the other to a place in a lent buffer from the values of their fields.
#![tactic(auto)]

ghost use Rattle.std.specs.Prelude.{◌≡◌, ◌+◌, ◌*◌, ◌≤◌, length as count};
ghost use Rattle.digits.specs.Stored.{stored};
ghost use Rattle.frames.specs.Table.{length_of, fields_in};
ghost use Rattle.framelines.specs.Lines.{lines_of};

use frames::table::Frame;
use frames_code::row_of;
use framesizes_code::length;
use framewrite_code::put_row;

// Writes `n` lines of a frame, one behind the other. Their values stand so too.
pub fn put_lines(out: &mut [u8], at: usize, frame: Frame, values: &[u64], n: usize)
    requires frame_bound { n * fields_in frame ≤ count values.now }
    requires frame_bound_2 { at + n * (length_of frame + 1) ≤ count out.old }
    ensures { out.new ≡ stored out.old at (lines_of frame values.now n) }
{
    let row = row_of(frame);
    let fields = row.fields;
    let mut next = at;
    let mut from = 0;
    for _ in 0..n {
        next = put_row(out, next, row, &values[from..]);
        from += fields;
    }
}

// The bytes of so many lines of a frame.
pub fn lines_length(frame: Frame, n: usize) -> usize
    requires { n ≤ 65535 }
    ensures { result ≡ n * (length_of frame + 1) }
{
    let line = length(frame) + 1;
    n * line
}
