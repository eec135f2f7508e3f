// All that is judged of drift and of accidental moments, and in which order.
ghost use Rattle.std.specs.Prelude.{◌≡◌};
ghost use Rattle.limits.specs.DriftJudging.{judged_drift, judged_moments};
ghost use Rattle.limits.specs.Outcome.{outcome};

use crate::displacement::displaced;
use crate::drift_limit::DriftLimit;
use crate::handed::Handed;
use crate::judging::judged_distribution;
use crate::lengths::{roomy, same_length};
use crate::levels::{counted, raised};
use crate::plan::Plan;
use crate::refusal::Refusal;

// 1, on the heights, 2, 4, 23 and 24 in turn, with room cells in the result buffer.
#[tactic(auto, unfolding(crate::specs::DriftJudging::judged_drift))]
pub fn judged_drift(
    heights: &[u64],
    displacements: &[i64],
    limit: u64,
    room: usize,
) -> Result<(), Refusal>
    ensures { outcome result ≡ judged_drift heights.now displacements.now limit room }
{
    counted(heights.len())?;
    same_length(heights.len(), displacements.len())?;
    roomy(heights.len(), room)?;
    raised(heights)?;
    displaced(displacements)?;
    DriftLimit::judged(limit)
}

// Two lists, as `judged_levels` says why.
// As the distribution is judged, then 26, with room cells in the shorter result buffer.
#[tactic(auto, unfolding(crate::specs::DriftJudging::judged_moments))]
pub fn judged_moments(
    handed: Handed,
    weights: &[u64],
    heights: &[u64],
    dimension: u64,
    room: usize,
) -> Result<(), Refusal>
    ensures { outcome result ≡ judged_moments handed.shear handed.period weights.now heights.now dimension room }
{
    judged_distribution(handed, weights, heights, room)?;
    Plan::judged_dimension(dimension)
}
