// The lines of a task file before its tasks: the 01 line, and behind it a 05 line and a 06 line, where there are such.
#![tactic(auto)]

ghost use Rattle.std.specs.Prelude.{◌≡◌, ◌≤◌, length as count, drop, Ok};
ghost use Rattle.frames.specs.Table.{width_of};
ghost use Rattle.frames.specs.declared.table.Frame.{Frame};
ghost use Rattle.taskfile.specs.File.{line_outcome, header_at};
ghost use Rattle.opening.specs.Opening.{opening_of, optional_of};

use frameread_code::field;
use frames::table::Frame;
use framesizes_code::length;
use is_line::is_line;
use opening::{Opening, OptionalLine};
use tasks::set::Header;

// A line of this kind at `at`, behind so many lines, if it is there.
fn optional_line(text: &[u8], at: usize, lines: usize, kind: Frame) -> OptionalLine
    requires at_bound { at ≤ count text.now }
    requires lines_bound { lines ≤ 2 }
    requires kind_bound { width_of kind 0 ≤ 4 }
    ensures { result ≡ optional_of kind (drop at text.now) at lines }
{
    if !is_line(text, at, kind) {
        return OptionalLine {
            figure: None,
            at,
            lines,
        };
    }
    let figure = field(text, at, kind, 0) as u16;
    let behind = at + (length(kind) + 1);
    let line = lines + 1;
    OptionalLine {
        figure: Some(figure),
        at: behind,
        lines: line,
    }
}

// What stands behind line 1, whose figures these are.
pub fn opened(text: &[u8], header: Header) -> Opening
    requires { (line_outcome text.now 1 ≡ Ok tt) × (header ≡ header_at text.now) }
    ensures { result ≡ opening_of text.now }
{
    let at = length(Frame::Header) + 1;
    let masked = optional_line(text, at, 1, Frame::Masked);
    let rule = optional_line(text, masked.at, masked.lines, Frame::Rule);
    let ticks = masked.figure;
    let number = rule.figure;
    Opening {
        header: header.with_lines(ticks, number),
        at: rule.at,
        lines: rule.lines,
    }
}
