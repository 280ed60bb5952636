// The fields of a line, written one behind the other.
#![tactic(auto)]

ghost use Rattle.std.specs.Prelude.{◌≡◌, ◌+◌, ◌≤◌, length as count};
ghost use Rattle.frames.specs.Table.{most_fields, sum};
ghost use Rattle.framewrite.specs.Line.{fields, row_widths};
ghost use Rattle.digits.specs.Stored.{stored};

use fieldwrite::put_value;
use frames::table::Row;

// Writes the fields of a line, one after the other, and says where they end.
pub fn put_fields(out: &mut [u8], at: usize, row: Row, values: &[u64]) -> usize
    requires fields_le_most_fields { (row.fields ≤ most_fields) × (row.fields ≤ count values.now) }
    requires row_bound { at + sum (row_widths row) ≤ count out.old }
    ensures value { result ≡ at + sum (row_widths row) }
    ensures out_after { out.new ≡ stored out.old at (fields (row_widths row) values.now) }
{
    let mut start = at;
    for (width, value) in row.widths[..row.fields].iter().zip(values) {
        let digits = *width as usize;
        put_value(out, start, digits, *value);
        start += digits;
    }
    start
}
