// The server and the reserve that a question names: is the server there, is the reserve allowed.
// What they mean stands in named/specs/Named.antt.
#![tactic(auto)]

ghost use Rattle.std.specs.Prelude.{◌≡◌, ◌^◌, ◌<◌};
ghost use Rattle.charging.specs.Charging.{entry_loss};
ghost use Rattle.named.specs.Named.{is_server, allowed};

use members_code::loss;
use plan::plan::Plan;
use tasks::set::Header;

// L + 1 ≤ R ≤ S − 1, or R = S.
pub fn is_allowed(slot: u64, loss: u64, reserve: u64) -> bool
    ensures { result ≡ allowed slot loss reserve }
{
    if reserve <= loss {
        return reserve == slot;
    }
    if reserve < slot {
        return true;
    }
    reserve == slot
}

// The reserve is allowed by the entry loss of a server of this cache cost.
pub fn is_allowed_to(header: Header, cache: u64, reserve: u64) -> bool
    requires { cache < 2 ^ 32 }
    ensures { result ≡ allowed header.slot (entry_loss header.resd cache) reserve }
{
    let lost = loss(header, cache);
    is_allowed(header.slot as u64, lost, reserve)
}

pub fn is_server(plan: Plan, server: u64) -> bool
    ensures { result ≡ is_server plan server }
{
    let before_first = server < 1;
    if before_first {
        return false;
    }
    server <= plan.servers
}
