// A number in decimal, as a word of the command line has it: digits 0-9 only, at least one, below 2^64.
// What it is stands in specs/Decimal.antt.
#![tactic(auto)]

ghost use Rattle.std.specs.Prelude.{◌≡◌, [], ◌∷◌};
ghost use Rattle.decimals.specs.Decimal.{number_from, decimal_of};

// A number with one digit more behind it.
pub fn append(high: u64, byte: u8) -> Option<u64>
    ensures { result ≡ number_from high (byte ∷ []) }
{
    if byte < 48 {
        return None;
    }
    let above = 57 < byte;
    if above {
        return None;
    }
    let digit = (byte - 48) as u64;
    if (18446744073709551615 - digit) / 10 < high {
        return None;
    }
    Some(high * 10 + digit)
}

pub fn decimal(text: &[u8]) -> Option<u64>
    ensures { result ≡ decimal_of text.now }
{
    let empty = text.len() == 0;
    if empty {
        return None;
    }
    let mut value: u64 = 0;
    for i in 0..text.len() {
        value = append(value, text[i])?;
    }
    Some(value)
}
