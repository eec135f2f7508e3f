// (21): the shear under each level.
ghost use Rattle.std.specs.Prelude.{◌≡◌, ◌+◌, ◌-◌, ◌*◌, ◌≤◌, ◌<◌, length};
ghost use Rattle.whole.specs.Cells.{laid};
ghost use Rattle.whole.specs.Rounding.{up};
ghost use Rattle.storeys.specs.Reach.{Load, Weighing};
ghost use Rattle.storeys.specs.Storeys.{weight_height, shears};

use crate::roof_force::roof_force;
use crate::weight_height::{above_lowest, weight_height};
use whole::quotients::up;

// F_t + (V - F_t) P_x / P, quotient up.
#[tactic(auto, using(crate::proofs::Roof::share_most))]
pub fn shared(ft: u64, v: u64, px: u64, p: u64) -> u64
    requires { (ft ≤ v) × (v ≤ 1_400_000_000) × (px ≤ p) × (0 < p) × (p ≤ 2_000_000_000) }
    ensures { result ≡ ft + up ((v - ft) * px) p }
{
    ft + up((v - ft) * px, p)
}

// Two lists, as the head of the crate says why.
// The shear under every level, into the first cells of out: P_x is that of the parts from level x on, which P_(x+1) is made of.
pub fn fill_shears(t: u64, v: u64, weights: &[u64], heights: &[u64], out: &mut [u64])
    requires { Load t v × Weighing weights.now heights.now × (0 < weight_height weights.now heights.now) × (length weights.now ≤ length out.old) }
    ensures { out.new ≡ laid (shears t v weights.now heights.now) out.old }
{
    let ft = roof_force(t, v);
    let p = weight_height(weights, heights);
    let mut px = p;
    for (x, cell) in out[..weights.len()].iter_mut().enumerate() {
        *cell = shared(ft, v, px, p);
        px = above_lowest(px, &weights[x..], &heights[x..]);
    }
}
