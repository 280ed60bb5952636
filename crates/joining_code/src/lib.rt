// One step of placing: the server for a task, by any fit.
// What it means stands in joining/specs/Join.antt, joining/specs/Fits.antt and joining/specs/Kept.antt. The server of each task stands in a
// slice, of which the first i are placed.
#![tactic(auto)]

ghost use Rattle.std.specs.Prelude.{◌≡◌, ◌+◌, ◌-◌, ◌≤◌, length, take};
ghost use Rattle.tasks.specs.Set.{most_tasks};
ghost use Rattle.places.specs.Places.{chosen};
ghost use Rattle.loads.specs.Figures.{figures_at, figures_to};
ghost use Rattle.members.specs.Server.{board_of, Filed, Bounded};
ghost use Rattle.shares.specs.Share.{share_of};
ghost use Rattle.shares.specs.Totals.{total_in};
ghost use Rattle.taking.specs.Takes.{takes};
ghost use Rattle.joining.specs.Join.{join};
ghost use Rattle.joining.specs.Fits.{fit_by};
ghost use Rattle.joining.specs.Kept.{Kept};

use candidate::may_take;
use packing::Fit;
use rooms::{room_in, worth_asking};
use shares::Share;
use tasks::set::Header;

// One step of placing: the server above lo that the fit names of those that take task i, by their room before it joins, otherwise a new
// one. Whether a server takes the task is asked only where it is better than what was found so far; by first fit none is.
pub fn server_for(
    fit: Fit,
    header: Header,
    figures: &[u64],
    placement: &[u64],
    kept: &[Share],
    i: usize,
    share: Share,
    lo: u64,
    count: u64,
    interrupts: &[u64],
    horizon: u64,
) -> u64
    requires filed { Filed header figures.now (i + 1) horizon }
    requires bounded { Bounded header interrupts.now horizon }
    requires i_in_bounds { (i ≤ length placement.now) × (count ≤ most_tasks) }
    requires share_value { share ≡ share_of header horizon (figures_at figures.now i) }
    requires kept { Kept header horizon (figures_to figures.now i) (take i placement.now) kept.now }
    ensures { result ≡ join (fit_by fit (λ q. horizon - total_in header horizon (chosen (figures_to figures.now i) (take i placement.now) q))) (takes (board_of header interrupts.now) (figures_to figures.now i) (take i placement.now) (figures_at figures.now i)) lo count }
{
    let mut found: u64 = 0;
    let mut held: u64 = 0;
    for at in lo..count {
        let q = at + 1;
        let own = kept[at as usize];
        let room = room_in(own, horizon);
        if worth_asking(fit, found, room, held) {
            let takes = may_take(
                header, figures, placement, i, q, own, share, interrupts, horizon,
            );
            if takes {
                found = q;
                held = room;
            }
        }
    }
    if found == 0 {
        return count + 1;
    }
    found
}
