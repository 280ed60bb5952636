// The words of a verdict on a reserve, in one line, in a lent buffer. What the line is stands in answerwords/specs/Answers.antt.
#![tactic(auto)]

ghost use Rattle.std.specs.Prelude.{◌≡◌};
ghost use Rattle.wordline.specs.Lined.{Lined};
ghost use Rattle.answerwords.specs.Answers.{ticks_to_spare, verdict_line};

use refusals::Written;
use verdict::answer::{Reading, Verdict};
use wordline::fit_words;

// The supply less the demand; 0 where the demand is above it.
fn ticks_to_spare(reading: Reading) -> u64
    ensures { result ≡ ticks_to_spare reading }
{
    let lacking = reading.supply < reading.demand;
    if lacking {
        return 0;
    }
    reading.supply - reading.demand
}

pub fn fit_verdict(verdict: Verdict, server: u64, reserve: u64, out: &mut [u8]) -> Written
    ensures { Lined out.old (verdict_line verdict server reserve) result out.new }
{
    match verdict {
        Verdict::Yes(closest) => {
            let spare = ticks_to_spare(closest);
            let numbers = [
                server,
                reserve,
                closest.length,
                closest.demand,
                closest.supply,
                spare,
            ];
            fit_words(
                b"server # passes with reserve #: closest at length #, demand #, supply #, ticks to spare #\n",
                &numbers,
                out,
            )
        }
        Verdict::No(failing) => {
            let numbers = [
                server,
                reserve,
                failing.length,
                failing.demand,
                failing.supply,
            ];
            fit_words(
                b"server # does not pass with reserve #: at length # demand # exceeds supply #\n",
                &numbers,
                out,
            )
        }
    }
}
