// The interrupts of a set of numbers: their count, and processor, cost, deadline, period and jitter of each place of them.
#![tactic(auto)]

ghost use Rattle.std.specs.Prelude.{◌≡◌, ◌≤◌};
ghost use Rattle.handed.specs.Handed.{most_numbers};
ghost use Rattle.handedinterrupts.specs.Interrupts.{interrupt_from, interrupts_from};

use handed::{INTERRUPTS, byte_at, half_at, number_at, word_at};
use std::array::from_fn;
use tasks::set::{Interrupt, Interrupts};

// The interrupt whose numbers stand from `start` on.
fn interrupt_from(numbers: &[u64], start: usize) -> Interrupt
    requires { start ≤ most_numbers }
    ensures { result ≡ interrupt_from numbers.now start }
{
    Interrupt {
        processor: byte_at(numbers, start),
        cost: word_at(numbers, start + 1),
        deadline: word_at(numbers, start + 2),
        period: word_at(numbers, start + 3),
        jitter: half_at(numbers, start + 4),
    }
}

pub fn interrupts_from(numbers: &[u64]) -> Interrupts
    ensures { result ≡ interrupts_from numbers.now }
{
    Interrupts {
        count: number_at(numbers, INTERRUPTS) as usize,
        each: from_fn(|k| interrupt_from(numbers, INTERRUPTS + 1 + 5 * k)),
    }
}
