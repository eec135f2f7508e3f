// The plan of a building: 26, of its dimension across the direction of the forces.
ghost use Rattle.std.specs.Prelude.{◌≡◌};
ghost use Rattle.limits.specs.Outcome.{outcome};
ghost use Rattle.limits.specs.Plan.{judged_dimension};

use crate::ranges::within;
use crate::refusal::{Number, Refusal};

// A dimension in dm.
#[derive(Clone, Copy)]
pub struct Plan {
    pub dimension: u64,
}

impl Plan {
    pub const DIMENSION_LEAST: u64 = 1;

    pub const DIMENSION_MOST: u64 = 5_000;

    // 26.
    pub fn judged_dimension(dimension: u64) -> Result<(), Refusal>
        ensures { outcome result ≡ judged_dimension dimension }
    {
        within(
            Self::DIMENSION_LEAST,
            Self::DIMENSION_MOST,
            dimension,
            Number::Dimension.into(),
        )
    }
}
