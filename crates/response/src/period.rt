// The period in ms.
ghost use Rattle.std.specs.Prelude.{◌≡◌, ◌≤◌, ◌<◌};
ghost use Rattle.response.specs.Period.{coefficient, approximate, in_use, period_of};

use limits::frame::Frame;
use limits::kind::Kind;
use whole::quotients::down;
use whole::roots::{largest, power};

// A period that is past every root: 1000 t^4 there is past 85^4 2000^3.
const PAST: u64 = 8192;

pub fn coefficient(kind: Kind) -> u64
    ensures { result ≡ coefficient kind }
{
    match kind {
        Kind::Steel => 85,
        Kind::Concrete | Kind::Braced => 70,
        Kind::Other => 50,
    }
}

// The largest t with 1000 t^4 <= c^4 h^3, h in dm.
pub fn approximate(kind: Kind, h: u64) -> u64
    requires { (1 ≤ h) × (h ≤ 2000) }
    ensures { result ≡ approximate kind h }
{
    largest(1000, 4, power(coefficient(kind), 4) * power(h, 3), PAST)
}

// With a calculated period the smaller of it and 14 t / 10 rounded down; else t. 0 is 'none', as the definitions `in_use` and `AllowedFrame` have it of a
// `Frame` that holds it so.
#[tactic(auto, unfolding(crate::specs::Period::in_use))]
pub fn in_use(calculated: u64, t: u64) -> u64
    requires { t ≤ 1_000_000 }
    ensures { result ≡ in_use calculated t }
{
    if calculated == Frame::NO_PERIOD {
        return t;
    }
    calculated.min(down(14 * t, 10))
}

pub fn period_of(kind: Kind, calculated: u64, h: u64) -> u64
    requires { (1 ≤ h) × (h ≤ 2000) }
    ensures { result ≡ period_of kind calculated h }
{
    in_use(calculated, approximate(kind, h))
}
