// The reduction factor, lower and upper, in its four branches: T is compared with parts of the corner 1000 B / A by products.
ghost use Rattle.std.specs.Prelude.{◌≡◌, ◌-◌, ◌*◌, ◌/◌, ◌≤◌, ◌<◌};
ghost use Rattle.response.specs.Reach.{FineUnit, Shape, Ductile};

use crate::side::Side;
use site::hazard::Hazard;
use whole::Fraction;
use whole::signs::{minus, plus, times};

// In s-ths, at the root of the square to the side S, rounded to it.
pub fn factor<S: Side>(s: u64, h: Hazard, t: u64) -> u64
    requires { FineUnit s × Shape h.a h.b t × Ductile s h.capacity h.square }
    ensures { result ≡ S.factor s h.a h.b t h.capacity h.square }
{
    let b = h.b;
    let ta = t * h.a;
    if 1000 * b <= ta {
        return S::quotient(s * h.capacity.num, h.capacity.den);
    }
    let root = S::root(s, h.square);
    if 600 * b <= ta {
        let rise = thirds(s, h.capacity) - 3 * root;
        return root + S::quotient(rise * (ta - 600 * b), 1200 * b);
    }
    if 200 * b <= ta {
        return root;
    }
    fallen::<S>(s, root, ta, 200 * b)
}

// The capacity in thirds of the unit, where it is whole: so its rise times T A fits 64 bits.
fn thirds(s: u64, capacity: Fraction) -> u64
    requires { (s ≤ 10_000_000) × (0 < capacity.den) × (capacity.num ≤ 6 * capacity.den) }
    ensures { result ≡ 3 * s / capacity.den * capacity.num }
{
    3 * s / capacity.den * capacity.num
}

// Root + (root - 1) y with a negative y = (T A - h) / h, where h is 200 B: what comes off is rounded to the other side.
fn fallen<S: Side>(s: u64, root: u64, ta: u64, h: u64) -> u64
    requires { (s ≤ root) × (root ≤ 60_000_000) × (ta ≤ h) × (0 < h) × (h ≤ 40_000_000_000) }
    ensures { result ≡ root - S.other ((root - s) * (h - ta)) h }
{
    let fall = times(minus(root, s), minus(ta, h));
    plus(root, S::signed_quotient(fall, h))
}
