// The servers that have a whole processor, in server order.
#![tactic(auto)]

ghost use Rattle.std.specs.Prelude.{◌≡◌, take};
ghost use Rattle.reserves.specs.Slotted.{SlottedFirst};
ghost use Rattle.reserves.specs.Whole.{whole_server};

// The k-th server, from 0, that has a whole processor; 0 where there is none.
pub fn whole_server(reserves: &[u64], n: usize, slot: u64, k: u64) -> u64
    requires { SlottedFirst slot reserves.now n }
    ensures { result ≡ whole_server slot (take n reserves.now) k }
{
    let mut more = k;
    for (i, reserve) in reserves[..n].iter().enumerate() {
        if slot <= *reserve {
            let here = more == 0;
            if here {
                return i as u64 + 1;
            }
            more -= 1;
        }
    }
    0
}
