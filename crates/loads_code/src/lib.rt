// The loads of one server: the figures of its members, charged.
// What they mean stands in loads/specs/Charge.antt. Figures stand in a slice of numbers, four for each, loads in one, three for each.
#![tactic(auto)]

ghost use Rattle.std.specs.Prelude.{◌≡◌, map, take};
ghost use Rattle.digits.specs.Stored.{stored};
ghost use Rattle.loads.specs.Charge.{numbers_of, charged_in, Charging};
ghost use Rattle.loads.specs.Figures.{members_at};

use tasks::set::Header;

// The figures at the first n places, charged with a cache cost, from the start of `loads` on; the rest of it as before.
pub fn charge(
    header: Header,
    cache: u64,
    figures: &[u64],
    places: &[u8],
    n: usize,
    loads: &mut [u64],
)
    requires { Charging header cache figures.now places.now n loads.old }
    ensures { loads.new ≡ stored loads.old 0 (numbers_of (map (charged_in header cache) (members_at figures.now (take n places.now)))) }
{
    for i in 0..n {
        let from = 4 * places[i] as usize;
        let to = 3 * i;
        loads[to] = charging::charged_cost(
            figures[from],
            header.relo as u64,
            header.ctswo as u64,
            cache,
        );
        loads[to + 1] = charging::charged_deadline(figures[from + 1], header.relj as u64);
        loads[to + 2] = figures[from + 2];
    }
}
