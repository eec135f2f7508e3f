// The time of each layer in ns, rounded up and down, and the sums U and L.
ghost use Rattle.std.specs.Prelude.{◌≡◌};
ghost use Rattle.limits.specs.Outcome.{outcome};
ghost use Rattle.soil.specs.Times.{Matched, judged_times};

use crate::velocity::velocity;
use limits::refusal::Refusal;
use whole::quotients;

// The times of all layers in ns: the sum of those rounded up, U, and of those rounded down, L.
#[derive(Clone, Copy)]
pub struct Times {
    pub up: u64,
    pub down: u64,
}

// The ns that 1 cm takes at 1 dm/s.
const NS_AT_UNIT: u64 = 100_000_000;

// 15 at the first layer to which it applies; else U and L.
pub fn timed(thicknesses: &[u64], kinds: &[u64], values: &[u64]) -> Result<Times, Refusal>
    requires { Matched thicknesses.now kinds.now values.now }
    ensures { outcome result ≡ judged_times thicknesses.now kinds.now values.now }
{
    let mut up = 0;
    let mut down = 0;
    for (((i, &thickness), &kind), &value) in thicknesses
        .iter()
        .enumerate()
        .zip(kinds)
        .zip(values)
    {
        let v = velocity(kind, value, i as u64 + 1)?;
        let ns = NS_AT_UNIT * thickness;
        up += quotients::up(ns, v);
        down += quotients::down(ns, v);
    }
    Ok(Times { up, down })
}
