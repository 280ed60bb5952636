// The sweep of a list of names, from a reader, read part by part. What it counts stands in specs/Swept.antt.
#![tactic(auto)]

ghost use Rattle.sweeplist.specs.Swept.{IsCounted, IsCountOf, NoCount};

use names_code::LONGEST_NAME;
use shell::front::front;
use shell::input::{BUFFER, read_some};
use std::fs::Files;
use std::io;
use std::io::Read;
use sweeping::Sweep;
use sweeping_code::{sweep_last, sweep_part};
use tally::Tally;

// The count, and whether all of the list could be read, up to the last name that is; if not, why.
#[derive(Clone, Copy)]
pub struct Swept {
    pub whole: bool,
    pub tally: Tally,
    pub failure: Option<io::Error>,
}

// A progress line stands for so many names.
const STRIDE: u64 = 1000;

// Tells on standard error how many names were read, where that is asked for and passes a stride.
fn tell_progress<E: Eprint>(rt: &E, progress: bool, before: u64, names: u64) {
    if progress && before / STRIDE < names / STRIDE {
        let _ = eprintln!(rt; "sweep: {names} names read");
    }
}

// A proved loop has to end, and nothing says that a list does: the turns are counted up to a number that no list comes to.
pub fn sweep_list<T: Files + Eprint, R: Read>(rt: &T, input: &mut R, progress: bool) -> Swept
    ensures counted { IsCounted result }
    ensures known { IsCountOf (R.remaining input.old) result }
    ensures unread { NoCount result }
{
    let mut part = [0u8; BUFFER];
    let mut name = [0u8; LONGEST_NAME];
    let mut sweep = Sweep {
        held: 0,
        tally: Tally::zero(),
    };
    let mut failure = None;
    'parts: for _ in 0..u64::MAX {
        let n = match read_some(input, &mut part) {
            Ok(n) => n,
            Err(error) => {
                failure = Some(error);
                break;
            }
        };
        if n == 0 {
            let tally = sweep_last(rt, &name, sweep);
            return Swept {
                whole: true,
                tally,
                failure,
            };
        }
        let before = sweep.tally.names;
        sweep = sweep_part(rt, front(&part, n), &mut name, sweep);
        let names = sweep.tally.names;
        tell_progress(rt, progress, before, names);
        let all_read = names == Tally::MOST_NAMES;
        if all_read {
            let tally = sweep.tally;
            return Swept {
                whole: true,
                tally,
                failure,
            };
        }
    }
    Swept {
        whole: false,
        tally: Tally::zero(),
        failure,
    }
}
