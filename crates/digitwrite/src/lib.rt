// Digits and numbers, written to a place in a text, and whether a number is too large for a width.
#![tactic(auto)]

ghost use Rattle.std.specs.Prelude.{◌≡◌, ◌+◌, ◌<◌, ◌≤◌, length};
ghost use Rattle.digits.specs.Digit.{digit_of};
ghost use Rattle.digits.specs.Number.{hex, too_large};
ghost use Rattle.digits.specs.Stored.{stored};

// The digit of a value below 16.
pub fn digit(v: u64) -> u8
    requires { v < 16 }
    ensures { result ≡ digit_of v }
{
    if v < 10 {
        (48 + v) as u8
    } else {
        (55 + v) as u8
    }
}

// Writes the low digits of a number at a width.
pub fn put_number(out: &mut [u8], at: usize, width: usize, value: u64)
    requires { at + width ≤ length out.old }
    ensures { out.new ≡ stored out.old at (hex width value) }
{
    let mut rest = value;
    for j in (at..at + width).rev() {
        out[j] = digit(rest % 16);
        rest /= 16;
    }
}

// Whether a number has more digits than a width.
pub fn too_large(width: usize, value: u64) -> bool
    ensures { result ≡ too_large width value }
{
    let mut high = value;
    for _ in 0..width {
        high /= 16;
    }
    high != 0
}
