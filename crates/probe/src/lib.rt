// What the benchmark calls from Rust: the searches for a short length and for the closest alone, with no file and no plan around them.
#![tactic(auto)]

ghost use Rattle.std.specs.Prelude.{◌≡◌, eqb};
ghost use Rattle.demand.specs.Load.{loads_of};
ghost use Rattle.interrupting.specs.Interrupts.{asked};
ghost use Rattle.interrupting.specs.Interrupted.{Interrupted};
ghost use Rattle.search.specs.Search.{Searched, NoneIn, first_up_to, last_up_to, short};
ghost use Rattle.steps.specs.Stepping.{steps};
ghost use Rattle.slack.specs.Least.{least_up_to};
ghost use Rattle.slack.specs.Slack.{slack_past};
ghost use Rattle.masking.specs.Masking.{Maskable, gaining, gain_of};

#[unsafe(no_mangle)]
pub extern "C" fn probe_last_short(loads: &[u64], n: usize, slot: u64, gap: u64, hi: u64) -> u64
    requires interrupted { Interrupted loads.now n }
    requires searched { Searched slot gap 0 hi }
    ensures { result ≡ last_up_to (short (asked loads.now n) slot gap 0) hi }
{
    last_short::last_short(loads, n, slot, gap, 0, hi)
}

#[unsafe(no_mangle)]
pub extern "C" fn probe_none_fails(
    loads: &[u64],
    n: usize,
    masked: u64,
    slot: u64,
    gap: u64,
    hi: u64,
) -> bool
    requires interrupted { Interrupted loads.now n }
    requires searched { Searched slot gap 0 hi }
    requires maskable { Maskable masked (loads_of loads.now n) hi }
    ensures { result ≡ eqb (first_up_to (short (gaining (gain_of masked (loads_of loads.now n)) (asked loads.now n)) slot gap 0) hi) 0 }
{
    let gain = masking_code::gain_of(loads, n, masked);
    none_fails::none_fails(loads, n, gain, slot, gap, hi)
}

#[unsafe(no_mangle)]
pub extern "C" fn probe_closest(
    loads: &[u64],
    n: usize,
    masked: u64,
    slot: u64,
    gap: u64,
    hi: u64,
) -> u64
    requires interrupted { Interrupted loads.now n }
    requires searched { Searched slot gap 0 hi }
    requires maskable { Maskable masked (loads_of loads.now n) hi }
    requires none_in { NoneIn (short (gaining (gain_of masked (loads_of loads.now n)) (asked loads.now n)) slot gap 0) 0 hi }
    ensures { result ≡ least_up_to (steps (gaining (gain_of masked (loads_of loads.now n)) (asked loads.now n))) (slack_past (gaining (gain_of masked (loads_of loads.now n)) (asked loads.now n)) slot gap) hi }
{
    let own = masking_code::gain_of(loads, n, masked);
    closeness_code::closest_of(loads, n, own, slot, gap, hi)
}
