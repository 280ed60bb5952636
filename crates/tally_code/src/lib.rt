// One name more in the count of a sweep, by what became of it. What it means stands in tally/specs/Tally.antt.
#![tactic(auto)]

ghost use Rattle.std.specs.Prelude.{◌≡◌, ◌<◌};
ghost use Rattle.tally.specs.Tally.{most_names, counted_of, Adds};

use refusals::Outcome;
use refusals_code::number;
use tally::Tally;
use under_number::{among_accepted, under_number};

// One name more, counted under its answer.
pub fn counted(tally: Tally, answer: Option<Outcome>) -> Tally
    requires { Adds tally × (tally.names < most_names) }
    ensures { result ≡ counted_of tally answer }
{
    match answer {
        None => under_number(tally, 0),
        Some(Ok(())) => among_accepted(tally),
        Some(Err(refusal)) => {
            let met = number(refusal) as usize;
            under_number(tally, met)
        }
    }
}
