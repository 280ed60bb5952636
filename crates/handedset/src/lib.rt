// The set of numbers: its count, the seven figures of the header, whether there is a 05 line (0 for none) and its figure, the same of a
// 06 line, then id, cost, deadline, period, whether there is a cache cost of its own (0 for none) and that cost of each place of the
// tasks, the count of the interrupts, and processor, cost, deadline, period and jitter of each place of these.
#![tactic(auto)]

ghost use Rattle.std.specs.Prelude.{◌≡◌, ◌≤◌};
ghost use Rattle.handed.specs.Handed.{interrupts_at};
ghost use Rattle.handedset.specs.Set.{task_from, set_from};

use handed::{TASKS, byte_at, number_at, optional_from, word_at};
use handedheader::header_from;
use handedinterrupts::interrupts_from;
use std::array::from_fn;
use tasks::set::{Task, TaskSet};

// The task whose numbers stand from `at` on.
fn task_from(numbers: &[u64], at: usize) -> Task
    requires { at ≤ interrupts_at }
    ensures { result ≡ task_from numbers.now at }
{
    Task {
        id: byte_at(numbers, at),
        cost: word_at(numbers, at + 1),
        deadline: word_at(numbers, at + 2),
        period: word_at(numbers, at + 3),
        cache: optional_from(numbers, at + 4),
    }
}

pub fn set_from(numbers: &[u64]) -> TaskSet
    ensures { result ≡ set_from numbers.now }
{
    TaskSet {
        header: header_from(numbers),
        count: number_at(numbers, 0) as usize,
        tasks: from_fn(|i| task_from(numbers, TASKS + 6 * i)),
        interrupts: interrupts_from(numbers),
    }
}
