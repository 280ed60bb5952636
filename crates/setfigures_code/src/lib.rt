// The figures of a task set.
// What they mean stands in setfigures/specs/Figures.antt.
#![tactic(auto)]

ghost use Rattle.std.specs.Prelude.{◌≡◌, ◌≤◌};
ghost use Rattle.tasks.specs.Set.{most_tasks};
ghost use Rattle.setfigures.specs.Figures.{figure_numbers};

use tasks::set::TaskSet;

// The own figures of a set's tasks, four numbers for each, in file order; unused room is zero.
pub fn figures(set: TaskSet) -> [u64; 4 * TaskSet::MOST_TASKS]
    requires { set.count ≤ most_tasks }
    ensures { result ≡ figure_numbers set }
{
    let header = set.header;
    let mut numbers = [0u64; 4 * TaskSet::MOST_TASKS];
    for i in 0..set.count {
        let task = set.tasks[i];
        let at = 4 * i;
        numbers[at] = task.cost as u64;
        numbers[at + 1] = task.deadline as u64;
        numbers[at + 2] = task.period as u64;
        numbers[at + 3] = task.cache_cost(header) as u64;
    }
    numbers
}
