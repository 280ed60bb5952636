// A line of a frame, written to a place in a lent buffer from the values of its fields.
#![tactic(auto)]

ghost use Rattle.std.specs.Prelude.{◌≡◌, ◌+◌, ◌≤◌, length as count};
ghost use Rattle.frames.specs.Table.{length_of, fields_in, most_fields, sum};
ghost use Rattle.framewrite.specs.Line.{fields, row_widths, line_by, line_of};
ghost use Rattle.digits.specs.Stored.{stored};

use frames::table::{Frame, Row};
use frames_code::row_of;
use put_fields::put_fields;
use store::store;

// Writes a line with its LF, by its row of the table, and says where it ends. Whoever writes many lines of a frame takes the row once.
pub fn put_row(out: &mut [u8], at: usize, row: Row, values: &[u64]) -> usize
    requires fields_le_most_fields { (row.fields ≤ most_fields) × (row.fields ≤ count values.now) }
    requires row_bound { at + 2 + sum (row_widths row) + 1 ≤ count out.old }
    ensures value { result ≡ at + 2 + sum (row_widths row) + 1 }
    ensures out_after { out.new ≡ stored out.old at (line_by row values.now) }
{
    let kind = row.kind;
    store(out, at, &kind);
    let end = put_fields(out, at + 2, row, values);
    out[end] = b'\n';
    end + 1
}

// Writes a line of a frame with its LF.
pub fn put_line(out: &mut [u8], at: usize, frame: Frame, values: &[u64])
    requires frame_bound { fields_in frame ≤ count values.now }
    requires frame_bound_2 { at + length_of frame + 1 ≤ count out.old }
    ensures { out.new ≡ stored out.old at (line_of frame values.now) }
{
    let row = row_of(frame);
    put_row(out, at, row, values);
}
