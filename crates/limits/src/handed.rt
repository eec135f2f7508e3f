// What is handed to the distribution beside the levels: 19 and 20.
ghost use Rattle.std.specs.Prelude.{◌≡◌};
ghost use Rattle.limits.specs.Handed.{judged_handed};
ghost use Rattle.limits.specs.Outcome.{outcome};

use crate::ranges::within;
use crate::refusal::{Number, Refusal};

// A base shear in N, and a period in ms.
#[derive(Clone, Copy)]
pub struct Handed {
    pub shear: u64,
    pub period: u64,
}

impl Handed {
    pub const SHEAR_LEAST: u64 = 1;

    pub const SHEAR_MOST: u64 = 1_200_000_000;

    pub const PERIOD_LEAST: u64 = 0;

    pub const PERIOD_MOST: u64 = 9_999;

    // 19, of the base shear, then 20, of the period.
    #[tactic(auto, unfolding(crate::specs::Handed::judged_handed))]
    pub fn judged(self) -> Result<(), Refusal>
        ensures { outcome result ≡ judged_handed self.shear self.period }
    {
        within(
            Self::SHEAR_LEAST,
            Self::SHEAR_MOST,
            self.shear,
            Number::BaseShear.into(),
        )?;
        within(
            Self::PERIOD_LEAST,
            Self::PERIOD_MOST,
            self.period,
            Number::PeriodHanded.into(),
        )
    }
}
