// How many bytes reading a task file looks at.
#![tactic(auto)]

ghost use Rattle.std.specs.Prelude.{◌≡◌};
ghost use Rattle.readbytes.specs.Furthest.{furthest};

use frames::table::MOST_FIELDS;
use frames_code::TABLE;
use tasks::set::TaskSet;

// The bytes of an 01, an 03, a 05, a 06 and an 07 line with its LF, by the table. A task line is an 02 or an 03 line, and 03 is the longer.
const HEADER_BYTES: usize = TABLE[0].starts[MOST_FIELDS] as usize + 1;

const TASK_BYTES: usize = TABLE[2].starts[MOST_FIELDS] as usize + 1;

const MASKED_BYTES: usize = TABLE[3].starts[MOST_FIELDS] as usize + 1;

const RULE_BYTES: usize = TABLE[4].starts[MOST_FIELDS] as usize + 1;

const INTERRUPT_BYTES: usize = TABLE[5].starts[MOST_FIELDS] as usize + 1;

// The bytes that reading looks at: a buffer of so many holds all that decides an answer.
pub const FURTHEST: usize = HEADER_BYTES
    + MASKED_BYTES
    + RULE_BYTES
    + TASK_BYTES * TaskSet::MOST_TASKS
    + INTERRUPT_BYTES * TaskSet::MOST_INTERRUPTS
    + HEADER_BYTES;

pub fn looks_at() -> usize
    ensures { result ≡ furthest }
{
    FURTHEST
}
