// The horizon of a set, where it is within its limit. What it means stands in rows/specs/Rows.antt.
#![tactic(auto)]

ghost use Rattle.std.specs.Prelude.{◌≡◌, false, ◌≤◌};
ghost use Rattle.wholes.specs.Multiple.{within};
ghost use Rattle.tasks.specs.Set.{most_interrupts, longest_horizon};
ghost use Rattle.rows.specs.Rows.{horizon_of, horizon_row, Chargeable, PeriodsOf};

use multiple_of::multiple_of;
use setfigures_code::figures;
use tasks::set::{Interrupts, TaskSet};

// The periods of interrupts, in file order.
fn periods(interrupts: Interrupts) -> [u64; TaskSet::MOST_INTERRUPTS]
    requires { interrupts.count ≤ most_interrupts }
    ensures { PeriodsOf interrupts result }
{
    let mut numbers = [0u64; TaskSet::MOST_INTERRUPTS];
    for i in 0..interrupts.count {
        numbers[i] = interrupts.each[i].period as u64;
    }
    numbers
}

// The horizon of a set, or none where it is past the limit: the tasks' periods, then the interrupts' in file order.
pub fn horizon_within(set: TaskSet) -> Option<u64>
    requires { Chargeable set }
    ensures { result ≡ within longest_horizon (horizon_of set) }
{
    let slot = set.header.slot as u64;
    let limit = TaskSet::LONGEST_HORIZON;
    let n = set.count;
    let count = set.interrupts.count;
    let numbers = figures(set);
    let others = periods(set.interrupts);
    let own = multiple_of(&numbers, 2, 4, n, slot, limit)?;
    multiple_of(&others, 0, 1, count, own, limit)
}

// The horizon of a set for which row 9 is clear.
pub fn horizon(set: TaskSet) -> u64
    requires { Chargeable set × (horizon_row set ≡ false) }
    ensures { result ≡ horizon_of set }
{
    horizon_within(set).unwrap_or(0)
}
