// A quotient rounded up: the processors of a ring are counted with it.
#![tactic(auto)]

ghost use Rattle.std.specs.Prelude.{◌≡◌, ◌≤◌};
ghost use Rattle.wholes.specs.Ceiling.{ceiling_of};

// The least number of b's that hold a.
pub fn ceiling(a: u64, b: u64) -> u64
    requires { 1 ≤ b }
    ensures { result ≡ ceiling_of a b }
{
    let q = a / b;
    let whole = a % b == 0;
    if whole { q } else { q + 1 }
}
