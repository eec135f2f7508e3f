// The modified ratio, and p of V*: three straight lines of one number against another.
ghost use Rattle.std.specs.Prelude.{◌≡◌, ◌≤◌, ◌<◌};
ghost use Rattle.response.specs.Ratio.{bent, ratio, modified, blended};
ghost use Rattle.response.specs.Reach.{Thousandths};

use site::lines::Lines;
use whole::quotients::up;

// The lines' constants are in thousandths.
const THOUSAND: u64 = 1000;

// The three lines at x, against y, in thousandths. An invariant of `Lines` in place of `Thousandths` would narrow `blended_full`: it is of any lines.
#[tactic(auto, unfolding(crate::specs::Ratio::bent))]
pub fn bent(l: Lines, x: u64, y: u64) -> u64
    requires { Thousandths l × (x ≤ 1_000_000_000_000) × (y ≤ 1_000_000_000_000) }
    ensures { result ≡ bent l x y }
{
    if THOUSAND * x <= l.first * y {
        return THOUSAND * x;
    }
    if THOUSAND * x <= l.second * y {
        return l.slope * x + l.add * y;
    }
    l.last * x
}

// q: the spectrum over the lower factor, up.
#[tactic(auto, unfolding(crate::specs::Ratio::ratio))]
pub fn ratio(s: u64, sa: u64, f: u64) -> u64
    requires { (s ≤ 10_000_000) × (sa ≤ 1_000_000_000) × (0 < f) }
    ensures { result ≡ ratio s sa f }
{
    up(s * sa, f)
}

// m: q against the unit, up.
#[tactic(auto, unfolding(crate::specs::Ratio::modified))]
pub fn modified(s: u64, l: Lines, q: u64) -> u64
    requires { Thousandths l × (s ≤ 10_000_000) × (q ≤ 1_000_000_000_000) }
    ensures { result ≡ modified s l q }
{
    up(bent(l, q, s), THOUSAND)
}

// p: the spectrum against the upper factor, up. It is m of other numbers, but a sentence of its own: `bent` is what the two share.
#[tactic(auto, unfolding(crate::specs::Ratio::blended))]
pub fn blended(l: Lines, sa: u64, f: u64) -> u64
    requires { Thousandths l × (sa ≤ 1_000_000_000_000) × (f ≤ 1_000_000_000_000) }
    ensures { result ≡ blended l sa f }
{
    up(bent(l, sa, f), THOUSAND)
}
