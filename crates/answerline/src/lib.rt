// The line that answers a question of a task file, or the 1F line of its refusal, in a lent buffer.
// What the lines are stands in specs/Lines.antt.
#![tactic(auto)]

ghost use Rattle.askfile.specs.OfFile.{who_in, pass_in};
ghost use Rattle.wordline.specs.Lined.{Lined};
ghost use Rattle.answerline.specs.Lines.{who_line, pass_line};

use answerwords_code::fit_verdict;
use askfile_code::{pass_in, who_in};
use fit_stand::fit_stand;
use planfit_code::fit_refusal;
use refusals::Written;
use ring::clock::Tick;

// Who runs on a processor at a tick, by the plan of a task file.
pub fn who_line(text: &[u8], processor: u64, tick: u64, out: &mut [u8]) -> Written
    ensures { Lined out.old (who_line (who_in text.now processor (record { 0 = tick })) processor tick) result out.new }
{
    let who = who_in(text, processor, Tick(tick));
    let outcome = who.outcome;
    match outcome {
        Ok(()) => fit_stand(who.server, who.left, processor, tick, out),
        Err(refusal) => fit_refusal(refusal, out),
    }
}

// Does a server pass with a reserve, by the plan of a task file.
pub fn pass_line(text: &[u8], server: u64, reserve: u64, out: &mut [u8]) -> Written
    ensures { Lined out.old (pass_line (pass_in text.now server reserve) server reserve) result out.new }
{
    let pass = pass_in(text, server, reserve);
    let outcome = pass.outcome;
    let verdict = pass.verdict;
    match outcome {
        Ok(()) => fit_verdict(verdict, server, reserve, out),
        Err(refusal) => fit_refusal(refusal, out),
    }
}
