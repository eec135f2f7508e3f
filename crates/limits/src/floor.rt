// A floor: its largest and its average displacement in 0.01 mm, without a sign; 23 and 25.
ghost use Rattle.std.specs.Prelude.{◌≡◌};
ghost use Rattle.limits.specs.Floor.{judged_unsigned, judged_average, judged_floor};
ghost use Rattle.limits.specs.Outcome.{outcome};

use crate::displacement::Displacement;
use crate::ranges::within;
use crate::refusal::{Number, Refusal};

#[derive(Clone, Copy)]
pub struct Floor {
    pub largest: u64,
    pub average: u64,
}

impl Floor {
    pub const DISPLACEMENT_LEAST: u64 = 0;

    pub const AVERAGE_LEAST: u64 = 1;

    // 23, of either displacement.
    fn judged_unsigned(d: u64) -> Result<(), Refusal>
        ensures { outcome result ≡ judged_unsigned d }
    {
        within(
            Self::DISPLACEMENT_LEAST,
            Displacement::SIZE_MOST,
            d,
            Number::Displacement.into(),
        )
    }

    // 25: an average of 0, or above the largest.
    fn judged_average(self) -> Result<(), Refusal>
        ensures { outcome result ≡ judged_average self.largest self.average }
    {
        within(
            Self::AVERAGE_LEAST,
            self.largest,
            self.average,
            Number::Average.into(),
        )
    }

    // 23, of the largest and of the average displacement, then 25.
    #[tactic(auto, unfolding(crate::specs::Floor::judged_floor))]
    pub fn judged(self) -> Result<(), Refusal>
        ensures { outcome result ≡ judged_floor self.largest self.average }
    {
        Self::judged_unsigned(self.largest)?;
        Self::judged_unsigned(self.average)?;
        self.judged_average()
    }
}
