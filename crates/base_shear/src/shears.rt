// The shears in N.
ghost use Rattle.std.specs.Prelude.{◌≡◌, ◌*◌, ◌/◌, ◌≤◌, ◌<◌};
ghost use Rattle.limits.specs.Allowed.{AllowedFrame};
ghost use Rattle.limits.specs.Building.{total_most};
ghost use Rattle.response.specs.Reach.{FineUnit, Thousandths};
ghost use Rattle.response.specs.Ratio.{blended, modified};
ghost use Rattle.base_shear.specs.Ready.{Ready};
ghost use Rattle.base_shear.specs.Shears.{blended_at, modified_at, newtons, ratio_at};

use limits::frame::Frame;
use response::factor::factor;
use response::ratio::{blended, modified, ratio};
use response::side::{Lower, Upper};
use response::spectrum::spectrum;
use site::hazard::Hazard;
use site::lines::Lines;
use whole::quotients::up;

// What a unit is made of, so that 10⁴ s-ths cancel against the ten tenths and the 1000 N of a kN.
const CANCELS: u64 = 10_000;

// I x W / (n / 10 alpha-y), up, of x s-ths. An invariant of `Frame` in place of `AllowedFrame` would narrow `newtons_rise`: it is of any frames.
pub fn newtons(s: u64, n: u64, f: Frame, w: u64, x: u64) -> u64
    requires { (s / 10_000 * 10_000 ≡ s) × (0 < s) × (s ≤ 10_000_000) × (0 < n) × (n ≤ 100) × AllowedFrame f × (w ≤ total_most) × (x ≤ 100_000_000) }
    ensures { result ≡ newtons s n f w x }
{
    up(f.i * x * w, n * (s / CANCELS) * f.alpha)
}

// q of a hazard. Unit, hazard and T are arguments, as of the definition `ratio_at`: a struct of the three would be built for one call.
pub fn ratio_at(s: u64, h: Hazard, t: u64) -> u64
    requires { FineUnit s × Ready s h t }
    ensures { result ≡ ratio_at s h t }
{
    let sa = spectrum(s, h.a, h.b, t);
    let f = factor::<Lower>(s, h, t);
    ratio(s, sa, f)
}

// m of a hazard.
pub fn modified_at(s: u64, l: Lines, h: Hazard, t: u64) -> u64
    requires { FineUnit s × Thousandths l × Ready s h t }
    ensures { (result ≡ modified_at s l h t) × (result ≤ 100_000_000) }
{
    modified(s, l, ratio_at(s, h, t))
}

// p of the hazard of V*.
pub fn blended_at(s: u64, l: Lines, h: Hazard, t: u64) -> u64
    requires { FineUnit s × Thousandths l × Ready s h t }
    ensures { (result ≡ blended_at s l h t) × (result ≤ 100_000_000) }
{
    let sa = spectrum(s, h.a, h.b, t);
    let f = factor::<Upper>(s, h, t);
    blended(l, sa, f)
}
