// The common measure of two whole numbers, and their least common multiple within a limit.
// The horizon of a task set is counted with them. What they mean stands in wholes/specs.
#![tactic(auto)]

ghost use Rattle.std.specs.Prelude.{◌≡◌};
ghost use Rattle.wholes.specs.Measure.{common_measure};
ghost use Rattle.wholes.specs.Multiple.{least_multiple, within};

// By remainders: the second number falls at each turn.
pub fn common_measure(a: u64, b: u64) -> u64
    ensures { result ≡ common_measure a b }
{
    let mut first = a;
    let mut second = b;
    while 0 < second {
        let rest = first % second;
        first = second;
        second = rest;
    }
    first
}

// The quotient is held against the limit before it is multiplied, so that no product wraps.
pub fn least_multiple(a: u64, b: u64, limit: u64) -> Option<u64>
    ensures { result ≡ within limit (least_multiple a b) }
{
    if b == 0 {
        return Some(0);
    }
    let g = common_measure(a, b);
    let q = a / g;
    if q <= limit / b { Some(q * b) } else { None }
}
