// The limit by which drift is judged: 24.
ghost use Rattle.std.specs.Prelude.{◌≡◌};
ghost use Rattle.limits.specs.DriftLimit.{judged_drift_limit};
ghost use Rattle.limits.specs.Outcome.{outcome};

use crate::ranges::within;
use crate::refusal::{Number, Refusal};

// A limit of the drift angle, in ten-thousandths.
#[derive(Clone, Copy)]
pub struct DriftLimit {
    pub limit: u64,
}

impl DriftLimit {
    pub const LEAST: u64 = 1;

    pub const MOST: u64 = 10_000;

    // 24.
    pub fn judged(limit: u64) -> Result<(), Refusal>
        ensures { outcome result ≡ judged_drift_limit limit }
    {
        within(Self::LEAST, Self::MOST, limit, Number::DriftLimit.into())
    }
}
