// Table 3: the site class of the times U and L.
ghost use Rattle.std.specs.Prelude.{◌≡◌, ◌*◌, ◌^◌, ◌<◌};
ghost use Rattle.soil.specs.Class.{table3, class_of};

use crate::times::Times;
use limits::class::Class;

// The class limits in 10 m/s: above the first a site is hard, below the second it is soft.
#[derive(Clone, Copy)]
pub struct ClassLimits {
    pub hard: u64,
    pub soft: u64,
}

// The ns that the 3,000 cm of a log take at 10 m/s.
const DEPTH_TIME: u64 = 3_000_000_000;

impl ClassLimits {
    // 270 and 180 m/s.
    pub const HARD: u64 = 27;

    pub const SOFT: u64 = 18;

    // Those of Table 3.
    pub fn table_3() -> ClassLimits
        ensures { result ≡ table3 }
    {
        ClassLimits {
            hard: Self::HARD,
            soft: Self::SOFT,
        }
    }
}

// Hard by U, soft by L, else normal.
#[tactic(auto, unfolding(crate::specs::Class::class_of))]
pub fn class_of(limits: ClassLimits, times: Times) -> Class
    requires { (limits.hard * times.up < 2 ^ 64) × (limits.soft * times.down < 2 ^ 64) }
    ensures { result ≡ class_of limits times }
{
    if limits.hard * times.up < DEPTH_TIME {
        return Class::Hard;
    }
    if DEPTH_TIME < limits.soft * times.down {
        return Class::Soft;
    }
    Class::Normal
}
