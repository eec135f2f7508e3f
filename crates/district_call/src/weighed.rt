// The five figures of a job with its total weight, by which the report sorts it.
ghost use Rattle.std.specs.Prelude.{◌≡◌};
ghost use Rattle.limits.specs.Outcome.{outcome};
ghost use Rattle.district_call.specs.Weighed.{weighed_job};

use base_shear::Figures;
use job::figures::{figures, total_weight};
use limits::judging::GivenValues;
use limits::refusal::Refusal;

// V, V_M, V*, V_D and T, and W in kN.
#[derive(Clone, Copy)]
pub struct Weighed {
    pub figures: Figures,
    pub weight: u64,
}

// Two lists, as `judged_levels` of limits says why.
// The figures of a job without buffers, or its refusal.
#[tactic(auto, unfolding(crate::specs::Weighed::weighed_job), using(crate::proofs::WeighedJobs::weighs))]
pub fn weighed_job(given: GivenValues, weights: &[u64], heights: &[u64]) -> Result<Weighed, Refusal>
    ensures { outcome result ≡ weighed_job given.ground given.frame weights.now heights.now }
{
    let figures = figures(given, weights, heights)?;
    let weight = total_weight(weights);
    Ok(Weighed { figures, weight })
}
