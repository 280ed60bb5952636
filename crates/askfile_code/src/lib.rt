// The two questions of a task file. A file that is refused, or whose plan is, refuses the question as it was refused.
// What is answered stands in askfile/specs/OfFile.antt.
#![tactic(auto)]

ghost use Rattle.std.specs.Prelude.{◌≡◌};
ghost use Rattle.askfile.specs.OfFile.{who_in, pass_in};

use doespass::PassAnswer;
use pass_made::refused_pass;
use pass_served::pass_served;
use planned::plan_of;
use planner_code::settle;
use ring::clock::Tick;
use taskplan_code::rows_read;
use taskread_code::read;
use who_made::{refused_who, who_made};
use whoruns::WhoAnswer;

pub fn who_in(text: &[u8], processor: u64, tick: Tick) -> WhoAnswer
    ensures { result ≡ who_in text.now processor tick }
{
    let file = read(text);
    let rows = rows_read(file);
    let set = file.set;
    let made = settle(set, rows);
    let outcome = made.outcome;
    match outcome {
        Ok(()) => who_made(set, plan_of(set, made.servers), processor, tick),
        Err(refusal) => refused_who(refusal),
    }
}

pub fn pass_in(text: &[u8], server: u64, reserve: u64) -> PassAnswer
    ensures { result ≡ pass_in text.now server reserve }
{
    let file = read(text);
    let rows = rows_read(file);
    let set = file.set;
    let made = settle(set, rows);
    let outcome = made.outcome;
    match outcome {
        Ok(()) => pass_served(set, made.servers, server, reserve),
        Err(refusal) => refused_pass(refusal),
    }
}
