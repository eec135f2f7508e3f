// Displacements of an analysis run, in 0.01 mm: 23.
ghost use Rattle.std.specs.Prelude.{◌≡◌};
ghost use Rattle.limits.specs.Displacement.{judged_displacement, displaced};
ghost use Rattle.limits.specs.Outcome.{outcome};

use crate::ranges::require;
use crate::refusal::{Number, Refusal};

// A displacement in 0.01 mm, of either sign.
#[derive(Clone, Copy)]
pub struct Displacement {
    pub hundredths: i64,
}

impl Displacement {
    pub const LEAST: i64 = -1_000_000;

    pub const MOST: i64 = 1_000_000;
    // The same without a sign.
    pub const SIZE_MOST: u64 = 1_000_000;

    // 23, of a level. It is compared and never negated: no i64 is the negation of the least one.
    pub fn judged(d: i64, place: u64) -> Result<(), Refusal>
        ensures { outcome result ≡ judged_displacement d place }
    {
        require(
            // as `in_range`, which is of numbers without a sign, as its definition is
            Self::LEAST <= d && d <= Self::MOST,
            Refusal::at(Number::Displacement, place),
        )
    }
}

// 23: the displacements of the levels.
#[tactic(auto, using(crate::proofs::DisplacedStage::displaced_step, crate::proofs::DisplacedStage::displaced_end))]
pub fn displaced(displacements: &[i64]) -> Result<(), Refusal>
    ensures { outcome result ≡ displaced 1 displacements.now }
{
    for (i, &d) in displacements.iter().enumerate() {
        Displacement::judged(d, i as u64 + 1)?;
    }
    Ok(())
}
