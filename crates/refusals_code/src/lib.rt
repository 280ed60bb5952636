// The number of a refusal, and its place.
#![tactic(auto)]

ghost use Rattle.std.specs.Prelude.{◌≡◌};
ghost use Rattle.refusals.specs.Refused.{number_of, place_of};

use refusals::Refusal;

pub fn number(refusal: Refusal) -> u64
    ensures { result ≡ number_of refusal }
{
    match refusal {
        Refusal::Line(_) => 1,
        Refusal::Order(_) => 2,
        Refusal::Count(_) => 3,
        Refusal::Twice(_) => 4,
        Refusal::Board => 5,
        Refusal::Range(_) => 6,
        Refusal::Slot(_) => 7,
        Refusal::Tight(_) => 8,
        Refusal::Horizon => 9,
        Refusal::Full(_) => 10,
        Refusal::Ask => 11,
        Refusal::Room => 12,
        Refusal::Alone(_) => 13,
    }
}

pub fn place(refusal: Refusal) -> u8
    ensures { result ≡ place_of refusal }
{
    match refusal {
        Refusal::Line(k) => k,
        Refusal::Order(k) => k,
        Refusal::Count(k) => k,
        Refusal::Twice(k) => k,
        Refusal::Board => 0,
        Refusal::Range(k) => k,
        Refusal::Slot(k) => k,
        Refusal::Tight(k) => k,
        Refusal::Horizon => 0,
        Refusal::Full(k) => k,
        Refusal::Ask => 0,
        Refusal::Room => 0,
        Refusal::Alone(k) => k,
    }
}
