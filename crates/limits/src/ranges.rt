// Whether a number is allowed: from a least to a most, or one of listed values.
ghost use Rattle.std.specs.Prelude.{◌≡◌};
ghost use Rattle.limits.specs.Outcome.{outcome, require};
ghost use Rattle.limits.specs.Ranges.{in_range, among, within, listed};

use crate::refusal::Refusal;

// Passes where a test holds, else refuses.
pub fn require(passes: bool, refusal: Refusal) -> Result<(), Refusal>
    ensures { outcome result ≡ require passes refusal.number refusal.place }
{
    if passes { Ok(()) } else { Err(refusal) }
}

// Whether x is from least to most.
#[tactic(auto, unfolding(crate::specs::Ranges::in_range))]
pub fn in_range(least: u64, most: u64, x: u64) -> bool
    ensures { result ≡ in_range least most x }
{
    least <= x && x <= most
}

// Whether x is one of the values.
pub fn among(values: &[u64], x: u64) -> bool
    ensures { result ≡ among values.now x }
{
    values.contains(&x)
}

// Passes x from least to most, else refuses it.
#[tactic(auto, unfolding(crate::specs::Ranges::within))]
pub fn within(least: u64, most: u64, x: u64, refusal: Refusal) -> Result<(), Refusal>
    ensures { outcome result ≡ within least most x refusal.number refusal.place }
{
    require(in_range(least, most, x), refusal)
}

// Passes x where it is one of the values, else refuses it.
#[tactic(auto, unfolding(crate::specs::Ranges::listed))]
pub fn listed(values: &[u64], x: u64, refusal: Refusal) -> Result<(), Refusal>
    ensures { outcome result ≡ listed values.now x refusal.number refusal.place }
{
    require(among(values, x), refusal)
}
