// What a server must have had in a window of a length: the demand of its loads, and of the interrupts behind them the greatest over
// processors. What it means stands in interrupting/specs/Interrupts.antt. A slice has three numbers for each load: cost, deadline, period; behind
// the loads, up to its end, four for each interrupt, by processor: processor, cost, deadline, period.
#![tactic(auto)]

ghost use Rattle.std.specs.Prelude.{◌≡◌, ◌<◌, ◌^◌};
ghost use Rattle.interrupting.specs.Interrupts.{asked, greatest_of_all, interrupts_of};
ghost use Rattle.interrupting.specs.Interrupted.{Interrupted};

// The greatest over processors, of the interrupts behind n loads. Sums only grow, so the greatest sum so far will do.
fn greatest_at(loads: &[u64], n: usize, t: u64) -> u64
    requires { Interrupted loads.now n × (t < 2 ^ 36) }
    ensures { result ≡ greatest_of_all (interrupts_of loads.now n) t }
{
    let from = 3 * n;
    let count = (loads.len() - from) / 4;
    let mut greatest: u64 = 0;
    let mut processor: u64 = 0;
    let mut sum: u64 = 0;
    for i in 0..count {
        let at = from + 4 * i;
        let its = loads[at];
        if processor < its {
            processor = its;
            sum = 0;
        }
        sum += demand_code::term_at(loads[at + 1], loads[at + 2], loads[at + 3], t);
        greatest = greatest.max(sum);
    }
    greatest
}

// The ticks that the first n loads and the interrupts behind them must have had in a window of length t.
pub fn asked_at(loads: &[u64], n: usize, t: u64) -> u64
    requires { Interrupted loads.now n × (t < 2 ^ 36) }
    ensures { result ≡ asked loads.now n t }
{
    let own = demand_at::demand_at(loads, n, t);
    own + greatest_at(loads, n, t)
}
