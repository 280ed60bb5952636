// One name more, among the accepted or under a refusal number. What it means stands in tally/specs/Tally.antt.
#![tactic(auto)]

ghost use Rattle.std.specs.Prelude.{◌≡◌, ◌<◌};
ghost use Rattle.tally.specs.Tally.{numbers, most_names, among_accepted, under, Adds};

use tally::Tally;

// One name more, among the accepted.
pub fn among_accepted(tally: Tally) -> Tally
    requires { Adds tally × (tally.names < most_names) }
    ensures { result ≡ among_accepted tally }
{
    let names = tally.names + 1;
    let accepted = tally.accepted + 1;
    Tally {
        names,
        accepted,
        ..tally
    }
}

// One name more, under a refusal number.
pub fn under_number(tally: Tally, number: usize) -> Tally
    requires adds { Adds tally × (tally.names < most_names) }
    requires number_lt_numbers { number < numbers }
    ensures { result ≡ under tally number }
{
    let mut refused = tally.refused;
    refused[number] += 1;
    Tally {
        names: tally.names + 1,
        refused,
        ..tally
    }
}
