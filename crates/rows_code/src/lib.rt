// Rows 5 to 9 of the refusals over a set, in order, with the horizon that row 9 finds. What they mean stands in rows/specs/Rows.antt.
#![tactic(auto)]

ghost use Rattle.std.specs.Prelude.{◌≡◌, ◌≤◌};
ghost use Rattle.tasks.specs.Set.{most_tasks, most_interrupts};
ghost use Rattle.rows.specs.Rows.{rows_of};

use horizon_within::horizon_within;
use refusals::Refusal;
use setfigures_code::figures;
use tasks::set::TaskSet;
use tightrows::TaskRow;
use tightrows_code::first_broken;

// Rows 5 to 9, the first that holds.
pub fn charged(set: TaskSet) -> Result<u64, Refusal>
    requires { (set.count ≤ most_tasks) × (set.interrupts.count ≤ most_interrupts) }
    ensures { result ≡ rows_of set }
{
    rangerows::figures(set)?;
    let early = first_broken(set, TaskRow::Slot);
    if early != 0 {
        return Err(Refusal::Slot(early as u8));
    }
    let tight = first_broken(set, TaskRow::Tight);
    if tight != 0 {
        return Err(Refusal::Tight(tight as u8));
    }
    horizon_within(set).ok_or(Refusal::Horizon)
}
