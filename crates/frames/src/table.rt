// The one table of frame kinds and field widths. The reader and every writer go by it.
// A frame with fewer than the most fields is filled up with fields of no digits. Where each field starts follows from the widths; it
// stands in the row so that nobody counts it again, and behind it where the line ends.

#[derive(Clone, Copy)]
pub enum Frame {
    Header,
    Task,
    Cached,
    Masked,
    Rule,
    Interrupt,
    Plan,
    Server,
    Placed,
    Processor,
    Refused,
    Switch,
    Accepted,
    Met,
}

// The number of kinds, and the most fields that one of them has.
pub const KINDS: usize = 14;

pub const MOST_FIELDS: usize = 7;

#[derive(Clone, Copy)]
pub struct Row {
    pub kind: [u8; 2],
    pub fields: usize,
    pub widths: [u8; MOST_FIELDS],
    pub starts: [u8; MOST_FIELDS + 1],
}
