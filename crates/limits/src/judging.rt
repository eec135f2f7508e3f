// All that is judged of a job, of the shear call and of the distribution, and what is handed on where it is accepted.
ghost use Rattle.std.specs.Prelude.{◌≡◌};
ghost use Rattle.limits.specs.Judging.{judged_given, judged_job, judged_distribution};
ghost use Rattle.limits.specs.Outcome.{outcome};

use crate::frame::{Frame, FrameValues};
use crate::ground::{Ground, GroundValues};
use crate::handed::Handed;
use crate::levels::judged_levels;
use crate::refusal::Refusal;

// A judged ground and frame. A type of its own, as `Ground` and `Frame` are.
#[derive(Clone, Copy)]
pub struct Given {
    pub ground: Ground,
    pub frame: Frame,
}

// A ground and a frame as they come.
#[derive(Clone, Copy)]
pub struct GivenValues {
    pub ground: GroundValues,
    pub frame: FrameValues,
}

// The ground, then the frame, after a first judgment: of a job on its levels, of the shear call on its building.
pub fn judged_given(first: Result<(), Refusal>, given: GivenValues) -> Result<Given, Refusal>
    ensures { outcome result ≡ judged_given (outcome first) given.ground given.frame }
{
    first?;
    let ground = Ground::judged(given.ground)?;
    let frame = Frame::judged(given.frame)?;
    Ok(Given { ground, frame })
}

// Two lists, as `judged_levels` says why.
// All judgments of a job: levels, ground and frame, with room cells in the shortest result buffer.
#[tactic(auto, unfolding(crate::specs::Judging::judged_job))]
pub fn judged_job(
    given: GivenValues,
    weights: &[u64],
    heights: &[u64],
    room: usize,
) -> Result<Given, Refusal>
    ensures { outcome result ≡ judged_job given.ground given.frame weights.now heights.now room }
{
    judged_given(judged_levels(weights, heights, room), given)
}

// Two lists, as `judged_levels` says why.
// All judgments of the distribution: levels, base shear and period.
#[tactic(auto, unfolding(crate::specs::Judging::judged_distribution))]
pub fn judged_distribution(
    handed: Handed,
    weights: &[u64],
    heights: &[u64],
    room: usize,
) -> Result<(), Refusal>
    ensures { outcome result ≡ judged_distribution handed.shear handed.period weights.now heights.now room }
{
    judged_levels(weights, heights, room)?;
    handed.judged()
}
