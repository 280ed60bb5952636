// The figures of a plan's 13 and 14 lines, one line behind the other, as the writer of lines takes them.
// What they are stands in planfigures/specs/Figures.antt.
#![tactic(auto)]

ghost use Rattle.std.specs.Prelude.{◌≡◌, ◌*◌, ◌≤◌, length as count};
ghost use Rattle.tasks.specs.Set.{most_tasks, most_processors};
ghost use Rattle.framelines.specs.Figures.{filled};
ghost use Rattle.planfigures.specs.Figures.{placed_figures, processor_figures};

use ring::cover::Stand;
use store::store;
use tasks::set::TaskSet;

// The figures of the 13 lines, in file order.
pub fn placed_values(set: TaskSet, placement: &[u64]) -> [u64; 2 * TaskSet::MOST_TASKS]
    requires { (set.count ≤ most_tasks) × (set.count ≤ count placement.now) }
    ensures { result ≡ filled (2 * most_tasks) (placed_figures set.tasks placement.now) set.count }
{
    let mut values = [0; 2 * TaskSet::MOST_TASKS];
    for (i, task) in set.tasks[..set.count].iter().enumerate() {
        let figures = [task.id as u64, placement[i]];
        store(&mut values, 2 * i, &figures);
    }
    values
}

// The figures of the 14 lines of the first processors.
pub fn processor_values(
    first: [Stand; TaskSet::MOST_TASKS],
    n: usize,
) -> [u64; 3 * TaskSet::MOST_PROCESSORS as usize]
    requires { n ≤ most_processors }
    ensures { result ≡ filled (3 * most_processors) (processor_figures first) n }
{
    let mut values = [0; 3 * TaskSet::MOST_PROCESSORS as usize];
    for (i, stand) in first[..n].iter().enumerate() {
        let figures = [i as u64 + 1, stand.server, stand.left];
        store(&mut values, 3 * i, &figures);
    }
    values
}
