// A question in the words of a command line: which it is, and the line that answers it.
// What they mean stands in specs/Question.antt.
#![tactic(auto)]

ghost use Rattle.std.specs.Prelude.{◌≡◌};
ghost use Rattle.wordline.specs.Lined.{Lined};
ghost use Rattle.askwords.specs.Question.{question_of, line_for};

use answerline::{pass_line, who_line};
use decimals::decimal;
use refusals::Written;

#[derive(Clone, Copy)]
pub enum Question {
    Who(u64, u64),
    Pass(u64, u64),
    Unclear,
}

// The question that three words ask.
pub fn asked(word: &[u8], first: &[u8], second: &[u8]) -> Question
    ensures { result ≡ question_of word.now first.now second.now }
{
    let Some(one) = decimal(first) else {
        return Question::Unclear;
    };
    let Some(other) = decimal(second) else {
        return Question::Unclear;
    };
    if check::same(word, b"who") {
        return Question::Who(one, other);
    }
    if check::same(word, b"pass") {
        return Question::Pass(one, other);
    }
    Question::Unclear
}

// The line that answers a question of a task file; nothing answers an unclear one.
pub fn answer(question: Question, text: &[u8], out: &mut [u8]) -> Written
    ensures { Lined out.old (line_for question text.now) result out.new }
{
    match question {
        Question::Who(processor, tick) => who_line(text, processor, tick, out),
        Question::Pass(server, reserve) => pass_line(text, server, reserve, out),
        Question::Unclear => Ok(0),
    }
}
