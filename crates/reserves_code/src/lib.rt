// Sums over the reserves: the ring's ticks and processors, the whole processors, where each reserve starts.
#![tactic(auto)]

ghost use Rattle.std.specs.Prelude.{◌≡◌, ◌≤◌, take};
ghost use Rattle.reserves.specs.Slotted.{SlottedFirst};
ghost use Rattle.reserves.specs.Reserves.{ring_ticks, wholes, start_of, ring_processors};

// The sum of the reserves on the ring.
pub fn ring_ticks(reserves: &[u64], n: usize, slot: u64) -> u64
    requires { SlottedFirst slot reserves.now n }
    ensures { result ≡ ring_ticks slot (take n reserves.now) }
{
    reserves[..n]
        .iter()
        .filter(|reserve| **reserve < slot)
        .sum()
}

// The servers that have a whole processor.
pub fn whole_count(reserves: &[u64], n: usize, slot: u64) -> u64
    requires { SlottedFirst slot reserves.now n }
    ensures { result ≡ wholes slot (take n reserves.now) }
{
    reserves[..n]
        .iter()
        .filter(|reserve| slot <= **reserve)
        .count() as u64
}

pub fn ring_processors(reserves: &[u64], n: usize, slot: u64) -> u64
    requires { SlottedFirst slot reserves.now n }
    ensures { result ≡ ring_processors slot (take n reserves.now) }
{
    wholes_code::ceiling(ring_ticks(reserves, n, slot), slot)
}

// Where the reserve of ring server q starts: after all ring reserves of lower number.
pub fn start(reserves: &[u64], n: usize, slot: u64, q: u64) -> u64
    requires { SlottedFirst slot reserves.now n × (1 ≤ q) × (q ≤ n) }
    ensures { result ≡ start_of slot (take n reserves.now) q }
{
    let before = (q - 1) as usize;
    ring_ticks(reserves, before, slot)
}
