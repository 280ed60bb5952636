// The smallest deadline of a server: with one task more, and whether B rules the task out beside it.
// What they mean stands in joining/specs/Soonest.antt.
#![tactic(auto)]

ghost use Rattle.std.specs.Prelude.{◌≡◌};
ghost use Rattle.joining.specs.Soonest.{soonest_with, masked_out};

// The smallest deadline with a task of deadline `due` in the server; 0 stands for a server without members.
pub fn soonest_with(soonest: u64, due: u64) -> u64
    ensures { result ≡ soonest_with soonest due }
{
    if soonest == 0 {
        return due;
    }
    if soonest < due {
        return soonest;
    }
    due
}

// B alone keeps a task of deadline `due` out of the server.
pub fn masked_out(due: u64, soonest: u64, masked: u64) -> bool
    ensures { result ≡ masked_out masked due soonest }
{
    if soonest == 0 {
        return false;
    }
    if due < soonest {
        return due <= masked;
    }
    if soonest < due {
        return soonest <= masked;
    }
    false
}
