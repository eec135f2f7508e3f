// A level of a job: the limits of its weight and its height, and how one level is judged.
ghost use Rattle.std.specs.Prelude.{◌≡◌};
ghost use Rattle.limits.specs.Levels.{judged_weight, judged_height, judged_level};
ghost use Rattle.limits.specs.Outcome.{outcome};

use crate::ranges::{require, within};
use crate::refusal::{Number, Refusal};

// A level: its weight in kN, its height above the base in dm.
#[derive(Clone, Copy)]
pub struct Level {
    pub weight: u64,
    pub height: u64,
}

impl Level {
    pub const FEWEST: u64 = 1;

    pub const MOST: u64 = 50;

    pub const WEIGHT_LEAST: u64 = 1;

    pub const WEIGHT_MOST: u64 = 20_000;

    pub const HEIGHT_LEAST: u64 = 1;

    pub const HEIGHT_MOST: u64 = 2_000;
    // What the lowest level rises above.
    pub const BASE: u64 = 0;

    // 3, of a weight.
    pub fn judged_weight(weight: u64, place: u64) -> Result<(), Refusal>
        ensures { outcome result ≡ judged_weight weight place }
    {
        within(
            Self::WEIGHT_LEAST,
            Self::WEIGHT_MOST,
            weight,
            Refusal::at(Number::Weight, place),
        )
    }

    // 4, of a height above the one below it.
    pub fn judged_height(below: u64, height: u64, place: u64) -> Result<(), Refusal>
        ensures { outcome result ≡ judged_height below height place }
    {
        let refusal = Refusal::at(Number::Height, place);
        within(Self::HEIGHT_LEAST, Self::HEIGHT_MOST, height, refusal)?;
        require(below < height, refusal)
    }

    // 3, then 4, of one level above a height. A job judges its levels as lists, as every weight comes before any height.
    pub fn judged(self, below: u64, place: u64) -> Result<Level, Refusal>
        ensures { outcome result ≡ judged_level below self.weight self.height place }
    {
        Self::judged_weight(self.weight, place)?;
        Self::judged_height(below, self.height, place)?;
        Ok(self)
    }
}
