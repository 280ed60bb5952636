// The value of a field, and byte strings, written to a place in a lent buffer.
#![tactic(auto)]

ghost use Rattle.std.specs.Prelude.{◌≡◌, ◌+◌, ◌≤◌, length as count};
ghost use Rattle.digits.specs.Number.{hex};
ghost use Rattle.digits.specs.Stored.{stored};
ghost use Rattle.fieldwrite.specs.Mark.{mark_width, mark_of};

use digitwrite::put_number;
use store::store;

// The ring start of a server on a whole processor, and the number that it stands for.
pub const WHOLE: [u8; MARK_DIGITS] = *b"FFFFFFFF";

const MARK_DIGITS: usize = 8;

pub const MARK: u64 = 0xFFFF_FFFF;

// Writes the mark of a whole processor.
fn put_mark(out: &mut [u8], at: usize)
    requires { at + mark_width ≤ count out.old }
    ensures { out.new ≡ stored out.old at mark_of }
{
    store(out, at, &WHOLE);
}

// Writes the value of a field. The greatest number of eight digits is the mark, a fixed byte string.
pub fn put_value(out: &mut [u8], at: usize, digits: usize, value: u64)
    requires { at + digits ≤ count out.old }
    ensures { out.new ≡ stored out.old at (hex digits value) }
{
    if digits == MARK_DIGITS && value == MARK {
        put_mark(out, at);
        return;
    }
    put_number(out, at, digits, value);
}
