// Whether the members at some places pass with a whole processor. What it means stands in members/specs/Server.antt.
#![tactic(auto)]

ghost use Rattle.std.specs.Prelude.{◌≡◌, take};
ghost use Rattle.loads.specs.Figures.{members_at};
ghost use Rattle.members.specs.Server.{board_of, fits, Bounded};
ghost use Rattle.served.specs.Served.{Served};

use served_code::{ROOM, charge_server};
use tasks::set::Header;

// The members at the first n places pass with a whole processor: charged, by their own horizon. A whole processor has no entry loss.
pub fn passes_whole(
    header: Header,
    cache: u64,
    figures: &[u64],
    places: &[u8],
    n: usize,
    interrupts: &[u64],
    horizon: u64,
) -> bool
    requires served { Served header cache figures.now places.now n horizon }
    requires bounded { Bounded header interrupts.now horizon }
    ensures { result ≡ fits (board_of header interrupts.now) (members_at figures.now (take n places.now)) }
{
    let mut loads = [0u64; ROOM];
    let own = charge_server(
        header, cache, figures, places, n, interrupts, horizon, &mut loads,
    );
    let masked = header.masked_ticks() as u64;
    let slot = header.slot as u64;
    let end = 3 * n + interrupts.len();
    verdict_code::passes(&loads[..end], n, masked, slot, 0, slot, own)
}
