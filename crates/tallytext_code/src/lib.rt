// The text of a sweep's report, into a lent buffer: the 40 line, then a 41 line for each number told.
// What it says stands in tallytext/specs/Text.antt.
#![tactic(auto)]

ghost use Rattle.std.specs.Prelude.{◌≡◌};
ghost use Rattle.planfit.specs.Fit.{Fits};
ghost use Rattle.tallytext.specs.Text.{told_figures, tally_text};

use framelines_code::put_lines;
use frames::table::{Frame, MOST_FIELDS};
use frames_code::TABLE;
use framewrite_code::put_line;
use refusals::{Refusal, Written};
use store::store;
use tally::Tally;

// The bytes of a 40 and of a 41 line with its LF, by the table.
const ACCEPTED_BYTES: usize = TABLE[12].starts[MOST_FIELDS] as usize + 1;

const MET_BYTES: usize = TABLE[13].starts[MOST_FIELDS] as usize + 1;

// The 41 lines, and the numbers that they tell: those of a reading or a plan, from 0.
const LINES: usize = 12;

const TOLD: [usize; LINES] = [0, 1, 2, 3, 4, 5, 6, 7, 8, 9, 10, 13];

// The bytes of a report.
pub const BYTES: usize = ACCEPTED_BYTES + LINES * MET_BYTES;

// The figures of all 41 lines.
const FIGURES: usize = 2 * LINES;

// The figures of the 41 lines, in the order told.
fn met_values(tally: Tally) -> [u64; FIGURES]
    ensures { result ≡ told_figures tally }
{
    let mut values = [0; FIGURES];
    for (k, &number) in TOLD.iter().enumerate() {
        let count = tally.refused[number];
        let figures = [number as u64, count];
        store(&mut values, 2 * k, &figures);
    }
    values
}

// The report where it fits, else ROOM and nothing stored.
pub fn fit_tally(tally: Tally, out: &mut [u8]) -> Written
    ensures { Fits out.old (tally_text tally) result out.new }
{
    let short = out.len() < BYTES;
    if short {
        return Err(Refusal::Room);
    }
    let first = [tally.accepted];
    put_line(out, 0, Frame::Accepted, &first);
    let values = met_values(tally);
    put_lines(out, ACCEPTED_BYTES, Frame::Met, &values, LINES);
    Ok(BYTES)
}
