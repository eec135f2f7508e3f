// The three hazards of a judged site.
ghost use Rattle.std.specs.Prelude.{◌≡◌, ◌≤◌};
ghost use Rattle.limits.specs.Allowed.{AllowedSite};
ghost use Rattle.site.specs.SiteHazards.{Mapped, accelerations, site_hazards};

use crate::capacity::{design_capacity, design_square, mce_capacity, mce_square};
use crate::coefficients::{acceleration_a, acceleration_b};
use crate::hazard::{Hazard, Hazards};
use crate::lines::{DIVISOR, LINES};
use limits::class::Class;
use limits::site::Site;

// The near-fault factor of a site that has none, in 0.01.
const NO_FACTOR: u64 = 100;

// The divisor of (19), 4.2, in tenths.
const STAR_DIVISOR: u64 = 42;

// A and B of a site, in 10⁻⁸ g.
#[derive(Clone, Copy)]
pub struct SiteAccelerations {
    pub a: u64,
    pub b: u64,
}

// A and B from mapped values and near-fault factors.
pub fn accelerations(class: Class, ss: u64, s1: u64, na: u64, nv: u64) -> SiteAccelerations
    requires { Mapped ss s1 na nv }
    ensures { result ≡ accelerations class ss s1 na nv }
{
    let a = acceleration_a(class, ss * na);
    let b = acceleration_b(class, s1 * nv);
    SiteAccelerations { a, b }
}

// V's by the pair of the design level, V_M's by that of the MCE level, and V*'s with both near-fault factors taken as 100.
pub fn site_hazards(site: Site, r: u64) -> Hazards
    requires { AllowedSite site × (100 ≤ r) × (r ≤ 600) }
    ensures { result ≡ site_hazards site r }
{
    let class = site.class;
    let design = accelerations(class, site.ssd, site.s1d, site.nad, site.nvd);
    let mce = accelerations(class, site.ssm, site.s1m, site.nam, site.nvm);
    let plain = accelerations(class, site.ssd, site.s1d, NO_FACTOR, NO_FACTOR);
    let allowable = design_capacity(r);
    let square = design_square(r);
    Hazards {
        design: Hazard {
            a: design.a,
            b: design.b,
            capacity: allowable,
            square,
        },
        mce: Hazard {
            a: mce.a,
            b: mce.b,
            capacity: mce_capacity(r),
            square: mce_square(r),
        },
        star: Hazard {
            a: plain.a,
            b: plain.b,
            capacity: allowable,
            square,
        },
        lines: LINES,
        divisor: DIVISOR,
        stardivisor: STAR_DIVISOR,
    }
}
