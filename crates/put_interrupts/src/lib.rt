// The 07 lines of a task file, one for each interrupt, written one behind the other.
#![tactic(auto)]

ghost use Rattle.std.specs.Prelude.{◌≡◌, ◌+◌, ◌*◌, ◌≤◌, length as bytes};
ghost use Rattle.frames.specs.Table.{length_of};
ghost use Rattle.framelines.specs.Figures.{filled};
ghost use Rattle.digits.specs.Stored.{stored};
ghost use Rattle.tasks.specs.Set.{counted, most_interrupts};
ghost use Rattle.optionallines.specs.Lines.{interrupt_figures, most_figures, interrupt_lines};

use framelines_code::put_lines;
use frames::table::Frame;
use store::store;
use tasks::set::{Interrupts, TaskSet};
use taskvalues::interrupt_values;

// The figures of as many 07 lines as a set has room for.
const MOST_FIGURES: usize = 5 * TaskSet::MOST_INTERRUPTS;

// The figures of the 07 lines, in file order.
fn interrupt_figures(interrupts: Interrupts) -> [u64; MOST_FIGURES]
    requires { interrupts.count ≤ most_interrupts }
    ensures { result ≡ filled most_figures (interrupt_figures interrupts.each) interrupts.count }
{
    let mut values = [0; MOST_FIGURES];
    for k in 0..interrupts.count {
        let figures = interrupt_values(interrupts.each[k]);
        store(&mut values, 5 * k, &figures);
    }
    values
}

// Writes the 07 lines, in file order.
pub fn put_interrupts(out: &mut [u8], at: usize, interrupts: Interrupts)
    requires count_le_most_interrupts { interrupts.count ≤ most_interrupts }
    requires length_of_bound { at + interrupts.count * (length_of Frame.Interrupt + 1) ≤ bytes out.old }
    ensures { out.new ≡ stored out.old at (interrupt_lines (counted interrupts)) }
{
    let values = interrupt_figures(interrupts);
    put_lines(out, at, Frame::Interrupt, &values, interrupts.count);
}
