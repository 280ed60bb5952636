// What one load asks of a length, the supply of a length, and the lengths up to which they stay as they are.
#![tactic(auto)]

ghost use Rattle.std.specs.Prelude.{◌≡◌, ◌*◌, ◌<◌, ◌≤◌, ◌^◌};
ghost use Rattle.demand.specs.Demand.{jobs};
ghost use Rattle.demand.specs.Supply.{Allowed, gap, last_with, supply_past};

// The ticks that one load must have had in a window of length t.
pub fn term_at(cost: u64, deadline: u64, period: u64, t: u64) -> u64
    requires le_period { (1 ≤ period) × (t < 2 ^ 36) }
    requires t_bound { cost * jobs deadline period t < 2 ^ 63 }
    ensures { result ≡ cost * jobs deadline period t }
{
    if deadline <= t {
        return cost * ((t - deadline) / period + 1);
    }
    0
}

// The usable ticks in the worst window of length t, for a reserve that leaves a gap in each slot.
pub fn supply_at(slot: u64, gap: u64, t: u64) -> u64
    requires { (1 ≤ slot) × (gap ≤ slot) }
    ensures { result ≡ supply_past slot gap t }
{
    let rest = t % slot;
    let whole = t / slot * (slot - gap);
    let broken = rest <= gap;
    if broken {
        return whole;
    }
    whole + (rest - gap)
}

// The last length whose supply is the given one. Without a gap it is that number, and nothing is divided.
pub fn last_with(slot: u64, gap: u64, supply: u64) -> u64
    requires { (gap < slot) × (last_with slot gap supply < 2 ^ 36) }
    ensures { result ≡ last_with slot gap supply }
{
    if gap == 0 {
        return supply;
    }
    let usable = slot - gap;
    supply / usable * slot + gap + supply % usable
}

// The longest stretch of a slot with nothing usable: none for a whole processor.
pub fn gap_of(slot: u64, loss: u64, reserve: u64) -> u64
    requires { Allowed slot loss reserve × (slot < 2 ^ 36) × (loss < 2 ^ 36) × (reserve < 2 ^ 36) }
    ensures { result ≡ gap slot loss reserve }
{
    if reserve == slot {
        return 0;
    }
    slot - reserve + loss
}
