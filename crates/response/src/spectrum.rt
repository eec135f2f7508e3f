// The spectrum: T is compared with the corner 1000 B / A by products, and there is one rounding, up.
ghost use Rattle.std.specs.Prelude.{◌≡◌, ◌+◌, ◌*◌, ◌≤◌, ◌<◌};
ghost use Rattle.response.specs.Reach.{FineUnit, Shape};
ghost use Rattle.whole.specs.Rounding.{up};
ghost use Rattle.response.specs.Spectrum.{spectrum};

use whole::quotients::up;

// A whole g in the unit of A and B.
const G: u64 = 100_000_000;

// A type of fine units in place of `FineUnit` would be taken apart again for `ratio`, `modified` and `newtons`, which ask less of s.
pub fn spectrum(s: u64, a: u64, b: u64, t: u64) -> u64
    requires { FineUnit s × Shape a b t }
    ensures { result ≡ spectrum s a b t }
{
    let d = G / s;
    let ta = t * a;
    if ta <= 200 * b {
        return rising(a, b, ta, d);
    }
    if ta <= 1000 * b {
        return up(a, d);
    }
    if ta <= 2500 * b {
        return up(1000 * b, d * t);
    }
    up(4 * a, 10 * d)
}

// A (0.4 + 3 T / T0) is A (400 B + 3 T A) / (1000 B). The product does not fit 64 bits, so its quotient by B is taken in parts:
// with 3 T A = q B + r it is (400 + q) A and, rounded up, r A / B.
fn rising(a: u64, b: u64, ta: u64, d: u64) -> u64
    requires { (a ≤ 200_000_000) × (0 < b) × (b ≤ 200_000_000) × (ta ≤ 200 * b) × (0 < d) × (d ≤ 100_000_000) }
    ensures { result ≡ up (a * (400 * b + 3 * ta)) (1000 * d * b) }
{
    let u = 3 * ta;
    let q = u / b;
    let r = u % b;
    up((400 + q) * a + up(r * a, b), 1000 * d)
}
