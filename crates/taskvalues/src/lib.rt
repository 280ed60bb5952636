// The figures of a header, of a task and of an interrupt as the values of their lines' fields.
#![tactic(auto)]

ghost use Rattle.std.specs.Prelude.{◌≡◌};
ghost use Rattle.tasks.specs.Values.{header_values, task_values, interrupt_values};

use tasks::set::{Header, Interrupt, Task};

pub fn header_values(header: Header) -> [u64; 7]
    ensures { result ≡ header_values header }
{
    [
        header.processors as u64,
        header.slot as u64,
        header.relj as u64,
        header.relo as u64,
        header.ctswo as u64,
        header.resd as u64,
        header.cpmdo as u64,
    ]
}

// Those of an 03 line; an 02 line has the first four.
pub fn task_values(task: Task) -> [u64; 5]
    ensures { result ≡ task_values task }
{
    [
        task.id as u64,
        task.cost as u64,
        task.deadline as u64,
        task.period as u64,
        task.cache.unwrap_or(0) as u64,
    ]
}

pub fn interrupt_values(interrupt: Interrupt) -> [u64; 5]
    ensures { result ≡ interrupt_values interrupt }
{
    [
        interrupt.processor as u64,
        interrupt.cost as u64,
        interrupt.deadline as u64,
        interrupt.period as u64,
        interrupt.jitter as u64,
    ]
}
