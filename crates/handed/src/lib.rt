// A set and a plan that are handed in as numbers, in the order of their fields, unused room too: the numbers, and where the parts stand.
// What they are stands in specs/Handed.antt.
#![tactic(auto)]

ghost use Rattle.std.specs.Prelude.{◌≡◌, ◌≤◌};
ghost use Rattle.handed.specs.Handed.{number_at, byte_at, half_at, word_at, optional_from, most_numbers};

use tasks::set::TaskSet;

pub const TASKS: usize = 12;

pub const INTERRUPTS: usize = TASKS + 6 * TaskSet::MOST_TASKS;

pub const SERVERS: usize = 5;

pub const EACH: usize = TaskSet::MOST_TASKS + 4;

pub const PLACEMENT: usize = SERVERS + EACH * TaskSet::MOST_TASKS;

pub const FIRST: usize = PLACEMENT + TaskSet::MOST_TASKS;

// Number i, from 0; 0 past the end.
pub fn number_at(numbers: &[u64], i: usize) -> u64
    ensures { result ≡ number_at numbers.now i }
{
    if i < numbers.len() { numbers[i] } else { 0 }
}

// Number i as a field of 8, 16 or 32 bits.
pub fn byte_at(numbers: &[u64], i: usize) -> u8
    ensures { result ≡ byte_at numbers.now i }
{
    (number_at(numbers, i) % 0x100) as u8
}

pub fn half_at(numbers: &[u64], i: usize) -> u16
    ensures { result ≡ half_at numbers.now i }
{
    (number_at(numbers, i) % 0x1_0000) as u16
}

pub fn word_at(numbers: &[u64], i: usize) -> u32
    ensures { result ≡ word_at numbers.now i }
{
    (number_at(numbers, i) % 0x1_0000_0000) as u32
}

// The figure of an optional line or field, where there is one: two numbers from `at` on.
pub fn optional_from(numbers: &[u64], at: usize) -> Option<u16>
    requires { at ≤ most_numbers }
    ensures { result ≡ optional_from numbers.now at }
{
    let absent = number_at(numbers, at) == 0;
    if absent {
        return None;
    }
    Some(half_at(numbers, at + 1))
}
