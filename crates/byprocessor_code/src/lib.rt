// The interrupts of a set by processor.
// What they mean stands in byprocessor/specs/Interrupts.antt.
#![tactic(auto)]

ghost use Rattle.std.specs.Prelude.{◌≡◌};
ghost use Rattle.tasks.specs.Set.{counted};
ghost use Rattle.byprocessor.specs.Interrupts.{by_processor, interrupt_numbers, Timely};

use tasks::set::{Interrupts, TaskSet};

// Four numbers for each: its processor, C, D − J and T. Those of processor 1 stand first, then those of 2, up to m; unused room is
// zero.
pub fn by_processor(interrupts: Interrupts, m: u8) -> [u64; 4 * TaskSet::MOST_INTERRUPTS]
    requires { Timely interrupts }
    ensures { result ≡ interrupt_numbers (by_processor m (counted interrupts)) }
{
    let mut numbers = [0u64; 4 * TaskSet::MOST_INTERRUPTS];
    let mut at: usize = 0;
    for p in 1..=m {
        for interrupt in &interrupts.each[..interrupts.count] {
            if interrupt.processor == p {
                numbers[at] = p as u64;
                numbers[at + 1] = interrupt.cost as u64;
                numbers[at + 2] = (interrupt.deadline - interrupt.jitter as u32) as u64;
                numbers[at + 3] = interrupt.period as u64;
                at += 4;
            }
        }
    }
    numbers
}
