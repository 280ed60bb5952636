// The answer of a line of a task file: what the line gives, or the refusal of the lowest row that holds there. How it is taken apart.
#![tactic(auto)]

ghost use Rattle.std.specs.Prelude.{◌≡◌};
ghost use Rattle.lineanswer.specs.Answer.{of_line};

use refusals::{Outcome, Refusal};

// The outcome of a line, whatever it gives.
pub fn of_line<T: Copy>(line: Result<T, Refusal>) -> Outcome
    ensures { result ≡ of_line line }
{
    line?;
    Ok(())
}
