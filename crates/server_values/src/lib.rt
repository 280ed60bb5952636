// The figures of a plan's 12 lines, one line behind the other, as the writer of lines takes them.
// What they are stands in planfigures/specs/Figures.antt.
#![tactic(auto)]

ghost use Rattle.std.specs.Prelude.{◌≡◌, cond, ◌*◌, ◌≤◌, ltb};
ghost use Rattle.tasks.specs.Set.{most_tasks};
ghost use Rattle.framelines.specs.Figures.{filled};
ghost use Rattle.planfigures.specs.Figures.{mark, server_figures};

use fieldwrite::MARK;
use plan::plan::Plan;
use plan_code::{counts, reserves, starts};
use store::store;
use tasks::set::TaskSet;

// The ring start of a server, or the mark where it has a whole processor.
fn start_or_mark(reserve: u64, slot: u64, start: u64) -> u64
    ensures { result ≡ cond (ltb reserve slot) start mark }
{
    if reserve < slot {
        return start;
    }
    MARK
}

// The figures of the 12 lines, by server.
pub fn server_values(plan: Plan) -> [u64; 4 * TaskSet::MOST_TASKS]
    requires { plan.servers ≤ most_tasks }
    ensures { result ≡ filled (4 * most_tasks) (server_figures plan.server plan.slot) plan.servers }
{
    let mut values = [0; 4 * TaskSet::MOST_TASKS];
    let n = plan.servers as usize;
    let slot = plan.slot;
    let reserve = reserves(plan);
    let start = starts(plan);
    let count = counts(plan);
    for i in 0..n {
        let begin = start_or_mark(reserve[i], slot, start[i]);
        let figures = [i as u64 + 1, reserve[i], begin, count[i]];
        store(&mut values, 4 * i, &figures);
    }
    values
}
