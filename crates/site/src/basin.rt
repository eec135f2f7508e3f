// The maker of the three hazards from a zone of the Taipei Basin: no site class and no near-fault factor plays a part.
ghost use Rattle.std.specs.Prelude.{◌≡◌, ◌≤◌};
ghost use Rattle.site.specs.Basin.{basin_hazard, basin_hazards};

use crate::capacity::{basin_capacity, basin_square, mce_capacity, mce_square};
use crate::hazard::{Hazard, Hazards};
use crate::lines::{DIVISOR, LINES};
use crate::table4::corner_period;
use limits::zone::Zone;
use whole::Fraction;

// S_DS = 0.6 g of (10) and S_MS = 0.8 g of (15), in 10⁻⁵ g.
const S_DS: u64 = 60_000;

const S_MS: u64 = 80_000;

// From 10⁻⁵ g to the 10⁻⁸ g of A.
const FINER: u64 = 1_000;

// The divisor of (19) in the Basin, 3.5, in tenths.
const STAR_DIVISOR: u64 = 35;

// A, and B = A T0 / 1000, of S_DS or S_MS in 10⁻⁵ g and T0 in ms.
fn basin_hazard(s: u64, corner: u64, capacity: Fraction, square: Fraction) -> Hazard
    requires { (s ≤ 100_000) × (corner ≤ 2_000) }
    ensures { result ≡ basin_hazard s corner capacity square }
{
    Hazard {
        a: s * FINER,
        b: s * corner,
        capacity,
        square,
    }
}

// V's, V_M's, and V*'s, which is V's: T0 is the zone's at both hazard levels.
pub fn basin_hazards(zone: Zone, r: u64) -> Hazards
    requires { (100 ≤ r) × (r ≤ 600) }
    ensures { result ≡ basin_hazards zone r }
{
    let corner = corner_period(zone);
    let design = basin_hazard(S_DS, corner, basin_capacity(r), basin_square(r));
    let mce = basin_hazard(S_MS, corner, mce_capacity(r), mce_square(r));
    Hazards {
        design,
        mce,
        star: design,
        lines: LINES,
        divisor: DIVISOR,
        stardivisor: STAR_DIVISOR,
    }
}
