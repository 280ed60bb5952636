// The names of a list that comes in parts: the name at hand, cut at the next LF. What it means stands in names/specs/Parts.antt.
#![tactic(auto)]

ghost use Rattle.std.specs.Prelude.{◌≡◌, ◌+◌, ◌≤◌, length, take, drop};
ghost use Rattle.names.specs.Names.{longest_name};
ghost use Rattle.names.specs.Parts.{most_held, index_of, up_to_lF, name_with, cut_of};

use names::Cut;
use store::store;

// The most bytes of a name that is opened, and how many are held of a longer one.
pub const LONGEST_NAME: usize = 255;

const MOST_HELD: usize = LONGEST_NAME + 1;

// Where a byte stands first from a place on, before an end, or else that end.
pub fn find(bytes: &[u8], from: usize, end: usize, byte: u8) -> usize
    requires { (from ≤ end) × (end ≤ length bytes.now) }
    ensures place { result ≡ from + index_of byte (drop from (take end bytes.now)) }
    ensures within { (from ≤ result) × (result ≤ end) }
{
    for at in from..end {
        if bytes[at] == byte {
            return at;
        }
    }
    end
}

// Cuts the name at hand at the next LF, and holds its bytes.
pub fn cut_name(part: &[u8], from: usize, name: &mut [u8], held: usize) -> Cut
    requires { (from ≤ length part.now) × (length name.old ≡ longest_name) × (held ≤ most_held) }
    ensures value { result ≡ cut_of part.now from held }
    ensures name_after { name.new ≡ name_with name.old held (up_to_lF (drop from part.now)) }
{
    let end = find(part, from, part.len(), b'\n');
    let more = end - from;
    let too_long = LONGEST_NAME < held + more;
    if too_long {
        return Cut {
            end,
            held: MOST_HELD,
        };
    }
    store(name, held, &part[from..end]);
    Cut {
        end,
        held: held + more,
    }
}
