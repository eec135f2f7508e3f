// F_t, the part of the base shear at the roof: the rule of document 02 in place of that of (21).
ghost use Rattle.std.specs.Prelude.{◌≡◌};
ghost use Rattle.storeys.specs.Reach.{Load};
ghost use Rattle.storeys.specs.Storeys.{roof_part, roof_force};

use whole::quotients::up;

// Up to this T, in ms, there is no roof force.
const NONE_UP_TO: u64 = 700;

// 0.07 a second is 7 in 100,000 a millisecond.
const PART: u64 = 7;

const WHOLE: u64 = 100_000;

// A quarter of WHOLE.
const QUARTER: u64 = 25_000;

// The part of V at the roof, in 100,000: none up to 700 ms, above that the smaller of 0.07 (T in s) and a quarter. The product saturates,
// so that no T is asked for to be small.
pub fn roof_part(t: u64) -> u64
    ensures { result ≡ (roof_part t).num }
{
    if t <= NONE_UP_TO {
        return 0;
    }
    PART.saturating_mul(t).min(QUARTER)
}

// F_t: that part of V, up.
pub fn roof_force(t: u64, v: u64) -> u64
    requires { Load t v }
    ensures { result ≡ roof_force t v }
{
    up(roof_part(t) * v, WHOLE)
}
