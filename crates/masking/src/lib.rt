// Masked interrupts: where a server's demand gains, and by how much.
// Types, definitions and laws; the code stands in masking_code.
#![tactic(auto)]

ghost use Rattle.std.specs.Prelude.{◌≡◌};
ghost use Rattle.masking.specs.Masking.{gains_some, gain_at};

// So many ticks more at each length from `from` up to, not including, `until`.
#[derive(Clone, Copy)]
pub struct Gain {
    pub extra: u64,
    pub from: u64,
    pub until: u64,
}

impl Gain {
    // Whether there is a length that gains.
    pub fn gains(self) -> bool
        ensures { result ≡ gains_some self }
    {
        if self.extra == 0 {
            return false;
        }
        self.from < self.until
    }

    // The gain at length t.
    pub fn at(self, t: u64) -> u64
        ensures { result ≡ gain_at self t }
    {
        if t < self.from {
            return 0;
        }
        if t < self.until {
            return self.extra;
        }
        0
    }
}
