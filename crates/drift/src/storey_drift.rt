// Drift (2.5.4): whether each storey stays within a limit.
ghost use Rattle.std.specs.Prelude.{◌≡◌, ◌≤◌, ◌<◌, length};
ghost use Rattle.limits.specs.DriftAllowed.{AllowedDrift};
ghost use Rattle.drift.specs.Drift.{DriftAnswers};

use limits::drift::judged_drift;
use limits::refusal::Refusal;
use storeys::overturning::{bottom, under};
use whole::signs::{difference, size};

// The displacement of the base.
const BASE: i64 = 0;

// Storeys that were judged: heights and displacements of their levels, and the limit.
#[derive(Clone, Copy)]
struct Storeys<'a> {
    heights: &'a [u64],
    displacements: &'a [i64],
    limit: u64,
    ghost allowed: { AllowedDrift heights.now displacements.now limit },
}

impl Storeys<'_> {
    ghost use Rattle.whole.specs.Cells.{laid};
    ghost use Rattle.drift.specs.Drift.{storey_height, apart, verdict_of, verdicts};

    // How far the ends of storey x are apart, whichever way: the size of the difference, not the difference of the sizes.
    fn apart(&self, x: usize) -> u64
        requires { x < length self.now.heights.now }
        ensures { result ≡ apart self.now.displacements.now x }
    {
        size(difference(self.displacements[x], under(BASE, self.displacements, x)))
    }

    // The storey's own height: that of its top less that of its bottom.
    fn height(&self, x: usize) -> u64
        requires { x < length self.now.heights.now }
        ensures { result ≡ storey_height self.now.heights.now x }
    {
        self.heights[x] - bottom(self.heights, x)
    }

    // Whether storey x stays within the limit: 1 yes, 0 no. In the units of the call the angle is at most the limit where the difference between the ends
    // is at most the limit times the height: the tens of thousands on both sides cancel, and nothing is rounded.
    #[tactic(auto, using(crate::proofs::Limit::by_products))]
    fn verdict(&self, x: usize) -> u64
        requires { x < length self.now.heights.now }
        ensures { result ≡ verdict_of self.now.heights.now self.now.displacements.now self.now.limit x }
    {
        // as the lent buffer holds it
        u64::from(self.apart(x) <= self.limit * self.height(x))
    }

    // The verdict of every storey, into the first cells of out.
    #[tactic(auto, using(storeys::proofs::Laying::laid_by_place))]
    fn fill_verdicts(&self, out: &mut [u64])
        requires { length self.now.heights.now ≤ length out.old }
        ensures { out.new ≡ laid (verdicts self.now.heights.now self.now.displacements.now self.now.limit) out.old }
    {
        for (x, cell) in out[..self.heights.len()].iter_mut().enumerate() {
            *cell = self.verdict(x);
        }
    }
}

// Heights in dm, displacements in 0.01 mm, a limit in ten-thousandths: a verdict of each storey in the lent buffer, 1 yes, 0 no.
#[tactic(auto, using(limits::proofs::AcceptedDrift::drift_allowed), unfolding(crate::specs::Drift::drift_of))]
pub fn drift(
    heights: &[u64],
    displacements: &[i64],
    limit: u64,
    verdicts: &mut [u64],
) -> Result<(), Refusal>
    ensures { DriftAnswers heights.now displacements.now limit verdicts.old result verdicts.new }
{
    judged_drift(heights, displacements, limit, verdicts.len())?;
    Storeys {
        heights,
        displacements,
        limit,
    }
    .fill_verdicts(verdicts);
    Ok(())
}
