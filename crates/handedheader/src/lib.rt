// The header of a set of numbers: its seven figures, whether there is a 05 line (0 for none) and its figure, and the same of a 06 line.
#![tactic(auto)]

ghost use Rattle.std.specs.Prelude.{◌≡◌};
ghost use Rattle.handedheader.specs.Header.{header_from};

use handed::{byte_at, half_at, optional_from, word_at};
use tasks::set::Header;

pub fn header_from(numbers: &[u64]) -> Header
    ensures { result ≡ header_from numbers.now }
{
    Header {
        processors: byte_at(numbers, 1),
        slot: word_at(numbers, 2),
        relj: half_at(numbers, 3),
        relo: half_at(numbers, 4),
        ctswo: half_at(numbers, 5),
        resd: half_at(numbers, 6),
        cpmdo: half_at(numbers, 7),
        masked: optional_from(numbers, 8),
        rule: optional_from(numbers, 10),
    }
}
