// The count of a sweep's names: all, those whose file was accepted, and those that met each refusal number.
// Types, definitions and laws; the code stands in tally_code and under_number.
#![tactic(auto)]

ghost use Rattle.std.specs.Prelude.{◌≡◌};
ghost use Rattle.tally.specs.Tally.{zero_tally};

// The names counted so far: all, those accepted, and those that met each refusal number, from 0.
#[derive(Clone, Copy)]
pub struct Tally {
    pub names: u64,
    pub accepted: u64,
    pub refused: [u64; Tally::NUMBERS],
}

impl Tally {
    // The most names that a list may have.
    pub const MOST_NAMES: u64 = 65535;

    // The refusal numbers, 0 to 13.
    pub const NUMBERS: usize = 14;

    // The count before the first name.
    pub fn zero() -> Tally
        ensures { result ≡ zero_tally }
    {
        Tally {
            names: 0,
            accepted: 0,
            refused: [0; Tally::NUMBERS],
        }
    }
}
