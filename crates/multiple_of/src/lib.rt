// The least common multiple of a slot and of the periods of loads and interrupts.
// What it means stands in members/specs/Server.antt. Loads stand in a slice of numbers, three for each, interrupts in one, four for each.
#![tactic(auto)]

ghost use Rattle.std.specs.Prelude.{◌≡◌};
ghost use Rattle.wholes.specs.Multiple.{least_multiple_of, within};
ghost use Rattle.members.specs.Server.{spaced, Apart};

// The least common multiple of a first number and of those of a slice from a place on, so far apart, so many; or none past the limit.
// Multiples of positive numbers only grow, so the first that is past the limit decides.
pub fn multiple_of(
    numbers: &[u64],
    from: usize,
    stride: usize,
    count: usize,
    first: u64,
    limit: u64,
) -> Option<u64>
    requires { Apart numbers.now from stride count first }
    ensures { result ≡ within limit (least_multiple_of first (spaced numbers.now from stride count)) }
{
    if limit < first {
        return None;
    }
    let mut m = first;
    for i in 0..count {
        let at = from + stride * i;
        let Some(next) = least_multiple::least_multiple(m, numbers[at], limit) else {
            return None;
        };
        m = next;
    }
    Some(m)
}
