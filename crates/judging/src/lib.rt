// Does a server pass with a reserve: its members, charged, by its own entry loss and its own horizon.
// What it means stands in members, specs/Server.antt. The figures stand in one slice, four for each task, the interrupts in
// another, four for each.
#![tactic(auto)]

ghost use Rattle.std.specs.Prelude.{◌≡◌, take};
ghost use Rattle.demand.specs.Supply.{Allowed};
ghost use Rattle.loads.specs.Charge.{server_loss};
ghost use Rattle.loads.specs.Figures.{members_at};
ghost use Rattle.members.specs.Server.{board_of, verdict_for, Bounded};
ghost use Rattle.served.specs.Served.{Served};

use members_code::loss;
use served_code::{ROOM, charge_server};
use tasks::set::Header;
use verdict::answer::Verdict;

// The verdict on the server of the first k places, with an allowed reserve.
pub fn judged(
    header: Header,
    cache: u64,
    figures: &[u64],
    places: &[u8],
    k: usize,
    reserve: u64,
    interrupts: &[u64],
    horizon: u64,
) -> Verdict
    requires served { Served header cache figures.now places.now k horizon }
    requires bounded { Bounded header interrupts.now horizon }
    requires allowed { Allowed header.slot (server_loss header (members_at figures.now (take k places.now))) reserve }
    ensures { result ≡ verdict_for (board_of header interrupts.now) (members_at figures.now (take k places.now)) reserve }
{
    let mut loads = [0u64; ROOM];
    let own = charge_server(
        header, cache, figures, places, k, interrupts, horizon, &mut loads,
    );
    let masked = header.masked_ticks() as u64;
    let slot = header.slot as u64;
    let lost = loss(header, cache);
    let end = 3 * k + interrupts.len();
    readings::verdict(&loads[..end], k, masked, slot, lost, reserve, own)
}
