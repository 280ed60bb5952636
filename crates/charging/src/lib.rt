// House charging: the effective deadline and cost of a task, and the entry loss of a ring reserve.
// What they mean stands in specs/Charging.antt.
#![tactic(auto)]

ghost use Rattle.std.specs.Prelude.{◌≡◌, ◌<◌, ◌≤◌, ◌^◌};
ghost use Rattle.charging.specs.Charging.{effective_deadline, effective_cost, entry_loss};

pub fn charged_deadline(d: u64, relj: u64) -> u64
    requires { relj ≤ d }
    ensures { result ≡ effective_deadline d relj }
{
    d - relj
}

pub fn charged_cost(c: u64, relo: u64, ctswo: u64, cpmdo: u64) -> u64
    requires { (c < 2 ^ 32) × (relo < 2 ^ 32) × (ctswo < 2 ^ 32) × (cpmdo < 2 ^ 32) }
    ensures { result ≡ effective_cost c relo ctswo cpmdo }
{
    c + relo + 2 * ctswo + cpmdo
}

pub fn entry_loss(resd: u64, cpmdo: u64) -> u64
    requires { (resd < 2 ^ 32) × (cpmdo < 2 ^ 32) }
    ensures { result ≡ entry_loss resd cpmdo }
{
    resd + cpmdo
}
