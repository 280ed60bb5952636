// Whether a server takes a task, and whether the task passes alone.
// What they mean stands in taking/specs/Takes.antt. The server of each task stands in a slice, of which the first i are placed.
#![tactic(auto)]

ghost use Rattle.std.specs.Prelude.{◌≡◌, [], ◌∷◌, ◌+◌, ◌≤◌, length, take};
ghost use Rattle.loads.specs.Charge.{cache_of};
ghost use Rattle.loads.specs.Figures.{figures_at, figures_to};
ghost use Rattle.members.specs.Server.{board_of, fits, Filed, Bounded};
ghost use Rattle.taking.specs.Takes.{with_task, takes};

use passes_whole::passes_whole;
use places_code::places_of;
use tasks::set::{Header, TaskSet};

// Server q passes with task i added: its members and the task behind them, all at the cache cost that they then have.
pub fn takes_task(
    header: Header,
    cache: u64,
    figures: &[u64],
    placement: &[u64],
    i: usize,
    q: u64,
    interrupts: &[u64],
    horizon: u64,
) -> bool
    requires filed { Filed header figures.now (i + 1) horizon }
    requires bounded { Bounded header interrupts.now horizon }
    requires i_in_bounds { i ≤ length placement.now }
    requires cache_value { cache ≡ cache_of (with_task (figures_to figures.now i) (take i placement.now) (figures_at figures.now i) q) }
    ensures { result ≡ takes (board_of header interrupts.now) (figures_to figures.now i) (take i placement.now) (figures_at figures.now i) q }
{
    let mut places = [0u8; TaskSet::MOST_TASKS];
    let before = places_of(placement, i, q, &mut places);
    places[before] = i as u8;
    passes_whole(
        header,
        cache,
        figures,
        &places,
        before + 1,
        interrupts,
        horizon,
    )
}

// Task i passes alone, at its own cache cost.
pub fn alone(header: Header, figures: &[u64], i: usize, interrupts: &[u64], horizon: u64) -> bool
    requires filed { Filed header figures.now (i + 1) horizon }
    requires bounded { Bounded header interrupts.now horizon }
    ensures { result ≡ fits (board_of header interrupts.now) (figures_at figures.now i ∷ []) }
{
    let places = [i as u8];
    let cache = figures[4 * i + 3];
    passes_whole(header, cache, figures, &places, 1, interrupts, horizon)
}
