// How many switches a turn has, without walking through it. What they are stands in turn's specs/Count.antt.
#![tactic(auto)]

ghost use Rattle.std.specs.Prelude.{◌≡◌, take};
ghost use Rattle.turn.specs.Stretch.{Laid};
ghost use Rattle.turn.specs.Count.{amid, stretches, switch_count};

use reserves_code::whole_count;
use ring_who::first;
use turn::Turn;

// The ring processors that start amid a reserve.
fn amid_count(reserves: &[u64], turn: Turn) -> u64
    requires { Laid turn reserves.now }
    ensures { result ≡ amid turn.slot (take turn.servers reserves.now) turn.ring }
{
    let mut count: u64 = 0;
    for p in 1..=turn.ring {
        let stand = first(reserves, turn.servers, turn.slot, p);
        let place = (stand.server - 1) as usize;
        if stand.left < reserves[place] {
            count += 1;
        }
    }
    count
}

pub fn switch_count(reserves: &[u64], turn: Turn) -> u64
    requires { Laid turn reserves.now }
    ensures { result ≡ switch_count turn.slot (take turn.servers reserves.now) }
{
    let mut stretches = turn.servers as u64 - whole_count(reserves, turn.servers, turn.slot);
    if turn.idle != 0 {
        stretches += 1;
    }
    turn.ring * stretches + amid_count(reserves, turn)
}
