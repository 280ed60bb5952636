// The sweep of a list of names that comes in parts: each name is counted where it ends. What it means stands in sweeping/specs/Sweeping.antt.
#![tactic(auto)]

ghost use Rattle.sweeping.specs.Sweeping.{Sweeping, Sweeps, Ends};

use names_code::cut_name;
use std::fs::Files;
use sweepfile_code::held_answer;
use sweeping::Sweep;
use tally::Tally;
use tally_code::counted;

// Counts the names that end in a part.
pub fn sweep_part<F: Files>(files: &F, part: &[u8], name: &mut [u8], sweep: Sweep) -> Sweep
    requires { Sweeping name.old sweep }
    ensures { Sweeps part.now name.old sweep name.new result }
{
    let mut at = 0;
    let mut held = sweep.held;
    let mut tally = sweep.tally;
    while tally.names < Tally::MOST_NAMES {
        let cut = cut_name(part, at, name, held);
        held = cut.held;
        let end = cut.end;
        let part_ends = end == part.len();
        if part_ends {
            return Sweep { held, tally };
        }
        let answer = held_answer(files, name, held);
        tally = counted(tally, answer);
        held = 0;
        at = end + 1;
    }
    Sweep { held, tally }
}

// Counts the name that the list's end ends, where there is one.
pub fn sweep_last<F: Files>(files: &F, name: &[u8], sweep: Sweep) -> Tally
    requires { Sweeping name.now sweep }
    ensures { Ends name.now sweep result }
{
    let tally = sweep.tally;
    let held = sweep.held;
    let no_more = Tally::MOST_NAMES <= tally.names;
    if no_more {
        return tally;
    }
    let none_begun = held == 0;
    if none_begun {
        return tally;
    }
    let answer = held_answer(files, name, held);
    counted(tally, answer)
}
