// The room of a server, and whether a server of this room is worth asking.
// What they mean stands in joining/specs/Fits.antt.
#![tactic(auto)]

ghost use Rattle.std.specs.Prelude.{◌≡◌, ◌+◌, ◌-◌, ◌*◌, ◌^◌, ◌<◌};
ghost use Rattle.joining.specs.Fits.{worth_asking};

use packing::Fit;
use shares::Share;
use shares_code::total;

// What the tasks of a server, of which `own` is kept, leave of the horizon.
pub fn room_in(own: Share, horizon: u64) -> u64
    requires { (own.work < 2 ^ 62) × (own.jobs < 2 ^ 32) × (own.cache < 2 ^ 16) }
    ensures { result ≡ horizon - (own.work + own.cache * own.jobs) }
{
    let asks = total(own.work, own.jobs, own.cache);
    if horizon < asks {
        return 0;
    }
    horizon - asks
}

// Nothing was found before, or the fit names a server of this room rather than the lower-numbered one that was found, whose room is held.
pub fn worth_asking(fit: Fit, found: u64, room: u64, held: u64) -> bool
    ensures { result ≡ worth_asking fit found room held }
{
    if found == 0 {
        return true;
    }
    match fit {
        Fit::First => false,
        Fit::Best => room < held,
        Fit::Worst => held < room,
    }
}
