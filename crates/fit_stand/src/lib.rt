// The words of who stands on a processor, in one line, in a lent buffer. What the line is stands in answerwords/specs/Answers.antt.
#![tactic(auto)]

ghost use Rattle.wordline.specs.Lined.{Lined};
ghost use Rattle.answerwords.specs.Answers.{stand_line};

use refusals::Written;
use wordline::fit_words;

pub fn fit_stand(server: u64, left: u64, processor: u64, tick: u64, out: &mut [u8]) -> Written
    ensures { Lined out.old (stand_line server left processor tick) result out.new }
{
    let idle = server == 0;
    if idle {
        let numbers = [processor, tick, left];
        return fit_words(
            b"processor # is idle at tick #, # ticks left\n",
            &numbers,
            out,
        );
    }
    let numbers = [server, processor, tick, left];
    fit_words(
        b"server # runs on processor # at tick #, # ticks left\n",
        &numbers,
        out,
    )
}
