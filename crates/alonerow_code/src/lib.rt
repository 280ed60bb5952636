// Row 13 of the refusals over figures and interrupts.
// What it means stands in alonerow/specs/Alone.antt. The tasks' own figures stand in one slice, of which the first n count, and
// the interrupts in another, four numbers for each of both.
#![tactic(auto)]

ghost use Rattle.std.specs.Prelude.{◌≡◌};
ghost use Rattle.tasks.specs.Search.{first_task};
ghost use Rattle.loads.specs.Figures.{figures_to};
ghost use Rattle.members.specs.Server.{board_of, Filed, Bounded};
ghost use Rattle.alonerow.specs.Alone.{fails_alone, Met};

use taking_code::alone;
use tasks::set::Header;

// The place of the first task that fails alone, from 1; 0 for none. Without interrupts none does, and none is looked at.
#[inline(never)]
pub fn first_alone(
    header: Header,
    figures: &[u64],
    n: usize,
    interrupts: &[u64],
    horizon: u64,
) -> usize
    requires filed { Filed header figures.now n horizon }
    requires bounded { Bounded header interrupts.now horizon }
    requires met { Met header (figures_to figures.now n) }
    ensures { result ≡ first_task (fails_alone (board_of header interrupts.now)) (figures_to figures.now n) }
{
    let bare = interrupts.len() == 0;
    if bare {
        return 0;
    }
    for i in 0..n {
        if !alone(header, figures, i, interrupts, horizon) {
            return i + 1;
        }
    }
    0
}
