// The planner, the check and the two questions, called with a set and a plan as numbers (crate `handed`), for the outside tests.
// Each answers every input, by numbers in lent memory: a status of 0 says that the answer stands there; any other is the refusal,
// and the memory is as before. What is answered stands in specs/Called.antt.
#![tactic(auto)]

ghost use Rattle.std.specs.Prelude.{◌≡◌};
ghost use Rattle.told.specs.Told.{status_of, leaves_numbers};
ghost use Rattle.plancheck.specs.Makes.{makes};
ghost use Rattle.handedset.specs.Set.{set_from};
ghost use Rattle.handedplan.specs.Plan.{plan_from};
ghost use Rattle.called.specs.Called.{planned_numbers, planned_told, who_numbers, who_told, pass_numbers, pass_told};

use doespass_code::pass;
use handedplan::plan_from;
use handedset::set_from;
use numbered::put_plan;
use plancheck_code::makes_plan;
use planner_code::make;
use ring::clock::Tick;
use tell::tell;
use told_code::{code, numbers_of};
use whoruns_code::who;

// The plan of a set.
#[unsafe(no_mangle)]
pub extern "C" fn handed_plan(set: &[u64], answer: &mut [u64]) -> u64
    ensures value { result ≡ status_of (planned_told set.now answer.old) }
    ensures answer_after { answer.new ≡ leaves_numbers (planned_told set.now answer.old) (planned_numbers set.now) answer.old }
{
    let made = make(set_from(set));
    let plan = made.plan;
    let outcome = made.outcome;
    match outcome {
        Ok(()) => put_plan(answer, plan),
        Err(refusal) => code(refusal),
    }
}

// Does the planner make this plan of this set.
#[unsafe(no_mangle)]
pub extern "C" fn handed_makes<'a>(set: &'a [u64], plan: &'a [u64]) -> bool
    ensures { result ≡ makes (set_from set.now) (plan_from plan.now) }
{
    makes_plan(set_from(set), plan_from(plan))
}

// Who runs on a processor at a tick: the server, 0 for idle, and the ticks left.
#[unsafe(no_mangle)]
pub extern "C" fn handed_who<'a>(
    set: &'a [u64],
    plan: &'a [u64],
    processor: u64,
    tick: u64,
    answer: &mut [u64],
) -> u64
    ensures value { result ≡ status_of (who_told set.now plan.now processor tick answer.old) }
    ensures answer_after { answer.new ≡ leaves_numbers (who_told set.now plan.now processor tick answer.old) (who_numbers set.now plan.now processor tick) answer.old }
{
    let who = who(set_from(set), plan_from(plan), processor, Tick(tick));
    let numbers = [who.server, who.left];
    let outcome = who.outcome;
    tell(answer, &numbers, outcome)
}

// Does a server pass with a reserve.
#[unsafe(no_mangle)]
pub extern "C" fn handed_pass<'a>(
    set: &'a [u64],
    plan: &'a [u64],
    server: u64,
    reserve: u64,
    answer: &mut [u64],
) -> u64
    ensures value { result ≡ status_of (pass_told set.now plan.now server reserve answer.old) }
    ensures answer_after { answer.new ≡ leaves_numbers (pass_told set.now plan.now server reserve answer.old) (pass_numbers set.now plan.now server reserve) answer.old }
{
    let passed = pass(set_from(set), plan_from(plan), server, reserve);
    let verdict = passed.verdict;
    let numbers = numbers_of(verdict);
    let outcome = passed.outcome;
    tell(answer, &numbers, outcome)
}
