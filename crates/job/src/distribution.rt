// The distribution: a base shear over the storeys, whoever worked it out.
ghost use Rattle.std.specs.Prelude.{◌≡◌, min};
ghost use Rattle.job.specs.Distribution.{Distributed};

use limits::handed::Handed;
use limits::judging::judged_distribution;
use limits::refusal::Refusal;
use storeys::storey::fill_storeys;

// The length of the shortest of three buffers.
pub fn shortest(forces: usize, shears: usize, overturnings: usize) -> usize
    ensures { result ≡ min (min forces shears) overturnings }
{
    forces.min(shears).min(overturnings)
}

// Lists and buffers come apart: of a buffer inside a struct a caller learns nothing without a clause that names it.
// A base shear in N at a period in ms, as they are handed in: a force, a shear and an overturning moment of each level in the lent buffers.
pub fn distribution(
    handed: Handed,
    weights: &[u64],
    heights: &[u64],
    forces: &mut [u64],
    shears: &mut [u64],
    overturnings: &mut [u64],
) -> Result<(), Refusal>
    ensures { Distributed handed.shear handed.period weights.now heights.now (record { forces = forces.old; shears = shears.old; overturnings = overturnings.old }) result (record { forces = forces.new; shears = shears.new; overturnings = overturnings.new }) }
{
    let room = shortest(forces.len(), shears.len(), overturnings.len());
    judged_distribution(handed, weights, heights, room)?;
    fill_storeys(
        handed.period,
        handed.shear,
        weights,
        heights,
        shears,
        forces,
        overturnings,
    );
    Ok(())
}
