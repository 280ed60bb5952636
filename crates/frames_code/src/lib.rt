// The one table of frame kinds and field widths. The reader and every writer go by it.
// A frame with fewer than the most fields is filled up with fields of no digits. Where each field starts follows from the widths; it
// stands in the row so that nobody counts it again, and behind it where the line ends.
#![tactic(auto)]

ghost use Rattle.std.specs.Prelude.{◌≡◌};
ghost use Rattle.frames.specs.Table.{row_of};

use frames::table::{Frame, KINDS, Row};

// The frames in the table's order.
pub const FRAMES: [Frame; KINDS] = [
    Frame::Header,
    Frame::Task,
    Frame::Cached,
    Frame::Masked,
    Frame::Rule,
    Frame::Interrupt,
    Frame::Plan,
    Frame::Server,
    Frame::Placed,
    Frame::Processor,
    Frame::Refused,
    Frame::Switch,
    Frame::Accepted,
    Frame::Met,
];

const HEADER: Row = Row {
    kind: *b"01",
    fields: 7,
    widths: [2, 6, 4, 4, 4, 4, 4],
    starts: [2, 4, 10, 14, 18, 22, 26, 30],
};

const TASK: Row = Row {
    kind: *b"02",
    fields: 4,
    widths: [2, 6, 6, 6, 0, 0, 0],
    starts: [2, 4, 10, 16, 22, 22, 22, 22],
};

const CACHED: Row = Row {
    kind: *b"03",
    fields: 5,
    widths: [2, 6, 6, 6, 4, 0, 0],
    starts: [2, 4, 10, 16, 22, 26, 26, 26],
};

const MASKED: Row = Row {
    kind: *b"05",
    fields: 1,
    widths: [4, 0, 0, 0, 0, 0, 0],
    starts: [2, 6, 6, 6, 6, 6, 6, 6],
};

const RULE: Row = Row {
    kind: *b"06",
    fields: 1,
    widths: [2, 0, 0, 0, 0, 0, 0],
    starts: [2, 4, 4, 4, 4, 4, 4, 4],
};

const INTERRUPT: Row = Row {
    kind: *b"07",
    fields: 5,
    widths: [2, 6, 6, 6, 4, 0, 0],
    starts: [2, 4, 10, 16, 22, 26, 26, 26],
};

const PLAN: Row = Row {
    kind: *b"11",
    fields: 5,
    widths: [2, 2, 2, 6, 8, 0, 0],
    starts: [2, 4, 6, 8, 14, 22, 22, 22],
};

const SERVER: Row = Row {
    kind: *b"12",
    fields: 4,
    widths: [2, 6, 8, 2, 0, 0, 0],
    starts: [2, 4, 10, 18, 20, 20, 20, 20],
};

const PLACED: Row = Row {
    kind: *b"13",
    fields: 2,
    widths: [2, 2, 0, 0, 0, 0, 0],
    starts: [2, 4, 6, 6, 6, 6, 6, 6],
};

const PROCESSOR: Row = Row {
    kind: *b"14",
    fields: 3,
    widths: [2, 2, 6, 0, 0, 0, 0],
    starts: [2, 4, 6, 12, 12, 12, 12, 12],
};

const REFUSED: Row = Row {
    kind: *b"1F",
    fields: 2,
    widths: [2, 2, 0, 0, 0, 0, 0],
    starts: [2, 4, 6, 6, 6, 6, 6, 6],
};

const SWITCH: Row = Row {
    kind: *b"21",
    fields: 3,
    widths: [8, 2, 2, 0, 0, 0, 0],
    starts: [2, 10, 12, 14, 14, 14, 14, 14],
};

const ACCEPTED: Row = Row {
    kind: *b"40",
    fields: 1,
    widths: [8, 0, 0, 0, 0, 0, 0],
    starts: [2, 10, 10, 10, 10, 10, 10, 10],
};

const MET: Row = Row {
    kind: *b"41",
    fields: 2,
    widths: [2, 8, 0, 0, 0, 0, 0],
    starts: [2, 4, 12, 12, 12, 12, 12, 12],
};

pub const TABLE: [Row; KINDS] = [
    HEADER, TASK, CACHED, MASKED, RULE, INTERRUPT, PLAN, SERVER, PLACED, PROCESSOR, REFUSED,
    SWITCH, ACCEPTED, MET,
];

// A frame's row. The arms name the rows: whoever indexes TABLE by a number that is not constant lays all of it out on the stack.
pub fn row_of(frame: Frame) -> Row
    ensures { result ≡ row_of frame }
{
    match frame {
        Frame::Header => HEADER,
        Frame::Task => TASK,
        Frame::Cached => CACHED,
        Frame::Masked => MASKED,
        Frame::Rule => RULE,
        Frame::Interrupt => INTERRUPT,
        Frame::Plan => PLAN,
        Frame::Server => SERVER,
        Frame::Placed => PLACED,
        Frame::Processor => PROCESSOR,
        Frame::Refused => REFUSED,
        Frame::Switch => SWITCH,
        Frame::Accepted => ACCEPTED,
        Frame::Met => MET,
    }
}
