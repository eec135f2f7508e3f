// A building as the shear call takes it, without levels: 3 and 4 at no level.
ghost use Rattle.std.specs.Prelude.{◌≡◌};
ghost use Rattle.limits.specs.Building.{judged_building};
ghost use Rattle.limits.specs.Outcome.{outcome};

use crate::level::Level;
use crate::ranges::within;
use crate::refusal::{Number, Refusal};

// A building: its total weight in kN, its top height above the base in dm.
#[derive(Clone, Copy)]
pub struct Building {
    pub weight: u64,
    pub height: u64,
}

impl Building {
    pub const WEIGHT_LEAST: u64 = 1;

    pub const WEIGHT_MOST: u64 = 1_000_000;

    // 3, of the total weight, then 4, of the top height.
    #[tactic(auto, unfolding(crate::specs::Building::judged_building))]
    pub fn judged(self) -> Result<(), Refusal>
        ensures { outcome result ≡ judged_building self.weight self.height }
    {
        within(
            Self::WEIGHT_LEAST,
            Self::WEIGHT_MOST,
            self.weight,
            Number::Weight.into(),
        )?;
        within(
            Level::HEIGHT_LEAST,
            Level::HEIGHT_MOST,
            self.height,
            Number::Height.into(),
        )
    }
}
