// The three columns of a listing, storey by storey.
ghost use Rattle.std.specs.Prelude.{◌≤◌, length};
ghost use Rattle.storeys.specs.Reach.{Load, Standing};
ghost use Rattle.storeys.specs.Storeys.{Filled};

use crate::level_force::fill_forces;
use crate::overturning::fill_overturnings;
use crate::shear::fill_shears;

// Two lists, as the head of the crate says why.
// Shears, forces and overturning of every storey, into the first cells of the three buffers.
pub fn fill_storeys(
    t: u64,
    v: u64,
    weights: &[u64],
    heights: &[u64],
    shears: &mut [u64],
    forces: &mut [u64],
    overturnings: &mut [u64],
)
    requires { Load t v × Standing weights.now heights.now × (length weights.now ≤ length shears.old) × (length weights.now ≤ length forces.old) × (length weights.now ≤ length overturnings.old) }
    ensures { Filled t v weights.now heights.now shears.old forces.old overturnings.old shears.new forces.new overturnings.new }
{
    let n = weights.len();
    fill_shears(t, v, weights, heights, shears);
    fill_forces(&shears[..n], forces);
    fill_overturnings(&forces[..n], heights, overturnings);
}
