// A number as text in decimal, without leading zeros, put to a place in a lent buffer.
// What it is stands in specs/Text.antt.
#![tactic(auto)]

ghost use Rattle.std.specs.Prelude.{◌≡◌, ◌+◌, ◌%◌, ◌≤◌, length};
ghost use Rattle.digits.specs.Stored.{stored};
ghost use Rattle.decimaltext.specs.Text.{decimal_text};

// The byte of a number's last digit.
fn last_digit(n: u64) -> u8
    ensures { result ≡ 48 + n % 10 }
{
    (48 + n % 10) as u8
}

// How many digits a number has.
pub fn decimal_length(n: u64) -> usize
    ensures { result ≡ length (decimal_text n) }
{
    let mut count = 1;
    let mut rest = n / 10;
    while 0 < rest {
        count += 1;
        rest = rest / 10;
    }
    count
}

// Puts a number's digits to a place, and answers where they end.
pub fn put_decimal(out: &mut [u8], at: usize, n: u64) -> usize
    requires { at + length (decimal_text n) ≤ length out.old }
    ensures value { result ≡ at + length (decimal_text n) }
    ensures out_after { out.new ≡ stored out.old at (decimal_text n) }
{
    let end = at + decimal_length(n);
    let mut left = end - 1;
    out[left] = last_digit(n);
    let mut rest = n / 10;
    while 0 < rest {
        left -= 1;
        out[left] = last_digit(rest);
        rest = rest / 10;
    }
    end
}
