// The job, and the two calls that it equals in turn.
#![tactic(auto)]

use base_shear::Figures;
use distribution::shortest;
use figures::job_figures;
use limits::judging::{GivenValues, judged_job};
use limits::refusal::Refusal;
use storeys::storey::fill_storeys;

pub mod distribution;
pub mod figures;
pub mod shear_call;

ghost use Rattle.job.specs.Job.{Answers};

// Lists and buffers come apart: of a buffer inside a struct a caller learns nothing without a clause that names it.
// The job: five figures or a refusal; a force, a shear and an overturning moment of each level in the lent buffers.
pub fn job(
    given: GivenValues,
    weights: &[u64],
    heights: &[u64],
    forces: &mut [u64],
    shears: &mut [u64],
    overturnings: &mut [u64],
) -> Result<Figures, Refusal>
    ensures { Answers given.ground given.frame weights.now heights.now (record { forces = forces.old; shears = shears.old; overturnings = overturnings.old }) result (record { forces = forces.new; shears = shears.new; overturnings = overturnings.new }) }
{
    let room = shortest(forces.len(), shears.len(), overturnings.len());
    let given = judged_job(given, weights, heights, room)?;
    let f = job_figures(given, weights, heights);
    fill_storeys(f.t, f.vd, weights, heights, shears, forces, overturnings);
    Ok(f)
}
