// Digits and numbers, read from a place in a text.
#![tactic(auto)]

ghost use Rattle.std.specs.Prelude.{◌≡◌, true, ◌+◌, ◌≤◌, length, take, drop};
ghost use Rattle.digits.specs.Digit.{legal, value_of, all_legal};
ghost use Rattle.digits.specs.Number.{number};

pub fn is_legal(b: u8) -> bool
    ensures { result ≡ legal b }
{
    if b <= 57 { 48 <= b } else { 65 <= b && b <= 70 }
}

// The value of a legal digit.
pub fn value(b: u8) -> u64
    requires { legal b ≡ true }
    ensures { result ≡ value_of b }
{
    if b <= 57 {
        (b - 48) as u64
    } else {
        (b - 55) as u64
    }
}

// Whether `width` bytes from `at` on are legal digits.
pub fn all_legal(text: &[u8], at: usize, width: usize) -> bool
    requires { at + width ≤ length text.now }
    ensures { result ≡ all_legal (take width (drop at text.now)) }
{
    text[at..at + width].iter().all(|b| is_legal(*b))
}

// The number that `width` legal digits from `at` on stand for.
pub fn number_at(text: &[u8], at: usize, width: usize) -> u64
    requires width_in_bounds { at + width ≤ length text.now }
    requires width_bound { width ≤ 16 }
    requires text_value { all_legal (take width (drop at text.now)) ≡ true }
    ensures { result ≡ number (take width (drop at text.now)) }
{
    let mut sum: u64 = 0;
    for b in &text[at..at + width] {
        sum = sum * 16 + value(*b);
    }
    sum
}
