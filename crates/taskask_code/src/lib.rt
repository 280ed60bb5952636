// Rows 3 and 4 of a task set, with what row 11 is: a set breaks row 3 or 4, or holds what no file's lines can carry.
#![tactic(auto)]

ghost use Rattle.std.specs.Prelude.{◌≡◌, ◌≤◌};
ghost use Rattle.tasks.specs.Set.{members, most_tasks};
ghost use Rattle.taskask.specs.Ask.{count_row, twice_row};

use tasks::set::TaskSet;

// 3 COUNT.
pub fn breaks_count(set: TaskSet) -> bool
    ensures { result ≡ count_row set }
{
    let none = set.count == 0;
    if none {
        return true;
    }
    let too_many = TaskSet::MOST_TASKS < set.count;
    if too_many {
        return true;
    }
    let interrupts = set.interrupts;
    TaskSet::MOST_INTERRUPTS < interrupts.count
}

// 4 TWICE. Each task's id is compared with those behind it.
pub fn breaks_twice(set: TaskSet) -> bool
    requires { set.count ≤ most_tasks }
    ensures { result ≡ twice_row (members set) }
{
    for i in 0..set.count {
        let id = set.tasks[i].id;
        if set.tasks[i + 1..set.count].iter().any(|task| task.id == id) {
            return true;
        }
    }
    false
}
