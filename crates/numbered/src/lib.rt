// A plan told in numbers, every field in its order, unused room too. What they are stands in specs/Numbered.antt.
#![tactic(auto)]

ghost use Rattle.std.specs.Prelude.{◌≡◌, Ok};
ghost use Rattle.told.specs.Told.{status_of, told_of, leaves_numbers};
ghost use Rattle.numbered.specs.Numbered.{plan_numbers};

use handed::{FIRST, PLACEMENT};
use numberedparts::{put_first, put_servers};
use plan::plan::Plan;
use refusals::Refusal;
use store::store;
use tasks::set::TaskSet;
use told_code::code;

const NUMBERS: usize = FIRST + 2 * TaskSet::MOST_TASKS;

// Puts the numbers of a plan at the answer's start; ROOM and nothing stored where it has fewer places.
pub fn put_plan(answer: &mut [u64], plan: Plan) -> u64
    ensures value { result ≡ status_of (told_of (Ok tt) (plan_numbers plan) answer.old) }
    ensures answer_after { answer.new ≡ leaves_numbers (told_of (Ok tt) (plan_numbers plan) answer.old) (plan_numbers plan) answer.old }
{
    let short = answer.len() < NUMBERS;
    if short {
        return code(Refusal::Room);
    }
    let figures = [plan.whole, plan.ring, plan.servers, plan.slot, plan.idle];
    store(answer, 0, &figures);
    put_servers(answer, plan);
    let placement = plan.placement;
    store(answer, PLACEMENT, &placement);
    put_first(answer, plan);
    0
}
