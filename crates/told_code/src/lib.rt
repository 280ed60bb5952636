// A refusal as one number, and the numbers of a verdict. What they are stands in told/specs/Told.antt.
#![tactic(auto)]

ghost use Rattle.std.specs.Prelude.{◌≡◌, Err};
ghost use Rattle.verdict.specs.Numbers.{verdict_numbers};
ghost use Rattle.told.specs.Told.{status_of};

use refusals::Refusal;
use refusals_code::{number, place};
use verdict::answer::Verdict;

// number · 256 + place
pub fn code(refusal: Refusal) -> u64
    ensures { result ≡ status_of (Err refusal) }
{
    let row = number(refusal);
    let at = place(refusal) as u64;
    row * 256 + at
}

// 1 for yes and 0 for no, then the length that the verdict carries, the demand and the supply there.
pub fn numbers_of(verdict: Verdict) -> [u64; 4]
    ensures { result ≡ verdict_numbers verdict }
{
    match verdict {
        Verdict::Yes(reading) => [1, reading.length, reading.demand, reading.supply],
        Verdict::No(reading) => [0, reading.length, reading.demand, reading.supply],
    }
}
