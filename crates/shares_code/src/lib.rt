// What a server's loads ask of the horizon.
#![tactic(auto)]

ghost use Rattle.std.specs.Prelude.{◌≡◌, ◌+◌, ◌*◌, ◌^◌, ◌<◌};

// What loads ask of the horizon: their work, and the cache cost at each of their jobs.
pub fn total(work: u64, jobs: u64, cache: u64) -> u64
    requires { (work < 2 ^ 62) × (jobs < 2 ^ 32) × (cache < 2 ^ 16) }
    ensures { result ≡ work + cache * jobs }
{
    work + cache * jobs
}
