// What a task brings into a server.
// What it means stands in shares/specs/Share.antt, shares/specs/Totals.antt and shares/specs/Soonest.antt.
#![tactic(auto)]

ghost use Rattle.std.specs.Prelude.{◌≡◌, ◌+◌};
ghost use Rattle.loads.specs.Figures.{figures_at};
ghost use Rattle.members.specs.Server.{Filed};
ghost use Rattle.shares.specs.Share.{share_of};

use shares::Share;
use tasks::set::Header;

// What task i brings.
pub fn share_of(header: Header, figures: &[u64], i: usize, horizon: u64) -> Share
    requires { Filed header figures.now (i + 1) horizon }
    ensures { result ≡ share_of header horizon (figures_at figures.now i) }
{
    let at = 4 * i;
    let cost = charging::charged_cost(figures[at], header.relo as u64, header.ctswo as u64, 0);
    let due = charging::charged_deadline(figures[at + 1], header.relj as u64);
    let jobs = horizon / figures[at + 2];
    Share {
        work: cost * jobs,
        jobs,
        cache: figures[at + 3],
        due,
    }
}
