// Line 1 of a task file: the header's figures, or the refusal of the lowest row that holds there.
// The reader takes the answer apart and hands a refusal straight up.
#![tactic(auto)]

ghost use Rattle.std.specs.Prelude.{◌≡◌, true};
ghost use Rattle.frameread.specs.Line.{formed};
ghost use Rattle.frames.specs.declared.table.Frame.{Frame};
ghost use Rattle.taskfile.specs.File.{line_outcome, header_at};
ghost use Rattle.lineanswer.specs.Answer.{line_or};

use frameread_code::{field, kind_at};
use frames::table::Frame;
use refusals::Refusal;
use tasks::set::Header;

fn header_at(text: &[u8]) -> Header
    requires { formed Frame.Header text.now ≡ true }
    ensures { result ≡ header_at text.now }
{
    Header {
        processors: field(text, 0, Frame::Header, 0) as u8,
        slot: field(text, 0, Frame::Header, 1) as u32,
        relj: field(text, 0, Frame::Header, 2) as u16,
        relo: field(text, 0, Frame::Header, 3) as u16,
        ctswo: field(text, 0, Frame::Header, 4) as u16,
        resd: field(text, 0, Frame::Header, 5) as u16,
        cpmdo: field(text, 0, Frame::Header, 6) as u16,
        masked: None,
        rule: None,
    }
}

pub fn header_line(text: &[u8]) -> Result<Header, Refusal>
    ensures { result ≡ line_or (line_outcome text.now 1) (header_at text.now) }
{
    if text.len() == 0 {
        return Err(Refusal::Order(1));
    }
    let found = kind_at(text, 0);
    let Some(frame) = found else {
        return Err(Refusal::Line(1));
    };
    match frame {
        Frame::Header => {
            let header = header_at(text);
            Ok(header)
        }
        Frame::Task | Frame::Cached | Frame::Masked | Frame::Rule | Frame::Interrupt => {
            Err(Refusal::Order(1))
        }
        _ => Err(Refusal::Line(1)),
    }
}
