// The five figures of a building, and of a job.
ghost use Rattle.std.specs.Prelude.{◌≡◌, ◌≤◌, ◌<◌, length};
ghost use Rattle.whole.specs.Cells.{sum};
ghost use Rattle.limits.specs.Allowed.{AllowedJob, AllowedShearCall};
ghost use Rattle.limits.specs.Building.{total_most};
ghost use Rattle.limits.specs.Levels.{top_height};
ghost use Rattle.job.specs.Job.{Figured, job_figures};
ghost use Rattle.job.specs.ShearCall.{building_figures};

use base_shear::Figures;
use base_shear::base::base_figures;
use limits::judging::{Given, GivenValues, judged_job};
use limits::refusal::Refusal;
use site::ground::ground_hazards;

// W: the weights of all levels.
pub fn total_weight(weights: &[u64]) -> u64
    requires { sum weights.now ≤ total_most }
    ensures { result ≡ sum weights.now }
{
    weights.iter().sum()
}

// h: the last of the heights.
pub fn top_height(heights: &[u64]) -> u64
    requires { 0 < length heights.now }
    ensures { result ≡ top_height heights.now }
{
    heights[heights.len() - 1]
}

// The five figures of a judged ground and frame, a total weight and a top height.
pub fn building_figures(given: Given, weight: u64, height: u64) -> Figures
    requires { AllowedShearCall given weight height }
    ensures { result ≡ building_figures given weight height }
{
    let hazards = ground_hazards(given.ground, given.frame.r);
    base_figures(hazards, given.frame, weight, height)
}

// Two lists, as `judged_levels` of limits says why.
// The five figures of a judged ground and frame on the levels of a job.
pub fn job_figures(given: Given, weights: &[u64], heights: &[u64]) -> Figures
    requires { AllowedJob given weights.now heights.now }
    ensures { result ≡ job_figures given weights.now heights.now }
{
    building_figures(given, total_weight(weights), top_height(heights))
}

// Two lists, as `judged_levels` of limits says why.
// The five figures of unjudged values, or the refusal, with no buffer to write to.
pub fn figures(given: GivenValues, weights: &[u64], heights: &[u64]) -> Result<Figures, Refusal>
    ensures { Figured given.ground given.frame weights.now heights.now result }
{
    let given = judged_job(given, weights, heights, weights.len())?;
    Ok(job_figures(given, weights, heights))
}
