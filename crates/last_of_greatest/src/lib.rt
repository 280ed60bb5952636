// The last length up to a bound where the greatest demand of the processors' interrupts steps. What a step is stands in
// steps/specs/Stepping.antt. The interrupts stand in one slice, four numbers for each, by processor.
#![tactic(auto)]

ghost use Rattle.std.specs.Prelude.{◌≡◌, ◌<◌, ◌≤◌, ◌^◌};
ghost use Rattle.demand.specs.Demand.{jobs};
ghost use Rattle.interrupting.specs.Interrupts.{greatest_of_all, interrupts_of};
ghost use Rattle.interrupting.specs.Interrupted.{Interrupted};
ghost use Rattle.search.specs.Search.{last_up_to};
ghost use Rattle.steps.specs.Stepping.{last_of_greater, steps};

// The last deadline of one load.
pub fn last_due(deadline: u64, period: u64, hi: u64) -> u64
    requires { (1 ≤ deadline) × (deadline ≤ period) }
    ensures { result ≡ last_up_to (steps (jobs deadline period)) hi }
{
    if deadline <= hi {
        return hi - (hi - deadline) % period;
    }
    0
}

// Of two demands that are a and b at a bound, and step last at x and y, the greater steps last where it comes to what it is there: where
// the larger does, and the sooner of two that are equal.
fn last_of_greater(a: u64, x: u64, b: u64, y: u64) -> u64
    ensures { result ≡ last_of_greater a x b y }
{
    if a < b {
        return y;
    }
    if b < a {
        return x;
    }
    let later = y < x;
    if later {
        return y;
    }
    x
}

// The last step of the greatest over processors.
pub fn last_of_greatest(loads: &[u64], n: usize, hi: u64) -> u64
    requires { Interrupted loads.now n × (hi < 2 ^ 36) }
    ensures { result ≡ last_up_to (steps (greatest_of_all (interrupts_of loads.now n))) hi }
{
    let from = 3 * n;
    let count = (loads.len() - from) / 4;
    let mut greatest: u64 = 0;
    let mut risen: u64 = 0;
    let mut processor: u64 = 0;
    let mut sum: u64 = 0;
    let mut last: u64 = 0;
    for i in 0..count {
        let at = from + 4 * i;
        let its = loads[at];
        if processor < its {
            processor = its;
            sum = 0;
            last = 0;
        }
        let d = loads[at + 2];
        let period = loads[at + 3];
        sum += demand_code::term_at(loads[at + 1], d, period, hi);
        last = last.max(last_due(d, period, hi));
        risen = last_of_greater(greatest, risen, sum, last);
        greatest = greatest.max(sum);
    }
    risen
}
