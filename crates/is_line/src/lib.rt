// Whether a line of a frame stands at a place in a text.
// A line is its kind, its fields at the table's widths, and one LF.
#![tactic(auto)]

ghost use Rattle.std.specs.Prelude.{◌≡◌, ◌≤◌, length as count, take, drop};
ghost use Rattle.frames.specs.Table.{kind_of};
ghost use Rattle.frameread.specs.Line.{formed};
ghost use Rattle.laws.specs.Same.{same};

use digitread::all_legal;
use frames::table::Frame;
use frames_code::row_of;
use framesizes_code::length;

// Whether the text at `at` starts with the frame's kind.
fn is_kind(text: &[u8], at: usize, frame: Frame) -> bool
    requires { at ≤ count text.now }
    ensures { result ≡ same (take 2 (drop at text.now)) (kind_of frame) }
{
    if text.len() - at < 2 {
        return false;
    }
    let row = row_of(frame);
    let kind = row.kind;
    let next = at + 1;
    text[at] == kind[0] && text[next] == kind[1]
}

// Whether the text from `at` on starts with a line of the frame.
pub fn is_line(text: &[u8], at: usize, frame: Frame) -> bool
    requires { at ≤ count text.now }
    ensures { result ≡ formed frame (drop at text.now) }
{
    if !is_kind(text, at, frame) {
        return false;
    }
    let n = length(frame);
    if text.len() - at <= n {
        return false;
    }
    let end = at + n;
    let open = text[end] != b'\n';
    if open {
        return false;
    }
    all_legal(text, at, n)
}
