// The places of one server's tasks, as numbers of one byte. What they mean stands in places/specs/Places.antt.
#![tactic(auto)]

ghost use Rattle.std.specs.Prelude.{◌≡◌, ◌≤◌, length, take};
ghost use Rattle.digits.specs.Stored.{stored};
ghost use Rattle.tasks.specs.Set.{most_tasks};
ghost use Rattle.places.specs.Places.{places_in};

// Writes the places of the tasks of server q among the first n to the front of `places`, and returns how many there are.
pub fn places_of(placement: &[u64], n: usize, q: u64, places: &mut [u8]) -> usize
    requires n_in_bounds { n ≤ length placement.now }
    requires n_le_most_tasks { n ≤ most_tasks }
    requires n_in_bounds_2 { n ≤ length places.old }
    ensures value { result ≡ length (places_in (take n placement.now) q) }
    ensures places_after { places.new ≡ stored places.old 0 (places_in (take n placement.now) q) }
{
    let mut count: usize = 0;
    for i in 0..n {
        if placement[i] == q {
            places[count] = i as u8;
            count += 1;
        }
    }
    count
}
