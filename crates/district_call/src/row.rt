// A row of a district: what a job on its stretch of the store gets.
ghost use Rattle.std.specs.Prelude.{◌≡◌, length};
ghost use Rattle.limits.specs.Outcome.{outcome};
ghost use Rattle.district_call.specs.Entered.{entered};
ghost use Rattle.district_call.specs.Row.{answer_to, row_of};

use crate::entered::{JOB, frame_in, ground_in, stretch_in};
use crate::weighed::{Weighed, weighed_job};
use limits::judging::GivenValues;
use limits::refusal::Refusal;

// How many numbers a row has: number, place, V, V_M, V*, V_D and T.
pub const ROW: usize = 7;

// 21, or what the job on its stretch is answered.
#[tactic(auto, unfolding(crate::specs::Row::answer_to), using(crate::proofs::Rows::stretch_fits))]
pub fn answer_to(j: &[u64; JOB], weights: &[u64], heights: &[u64]) -> Result<Weighed, Refusal>
    requires { length heights.now ≡ length weights.now }
    ensures { outcome result ≡ answer_to weights.now heights.now (entered j.now) }
{
    let stretch = stretch_in(j);
    stretch.judged(weights.len() as u64)?;
    let start = stretch.start as usize;
    let end = start + stretch.count as usize;
    let given = GivenValues {
        ground: ground_in(j),
        frame: frame_in(j),
    };
    weighed_job(given, &weights[start..end], &heights[start..end])
}

// The numbers of a row; zeros for figures where the job is refused.
#[tactic(auto, unfolding(crate::specs::Row::row_of))]
pub fn row_of(a: Result<Weighed, Refusal>) -> [u64; ROW]
    ensures { result ≡ row_of (outcome a) }
{
    match a {
        Ok(w) => {
            let n = w.figures;
            [0, 0, n.v, n.vm, n.star, n.vd, n.t]
        }
        Err(r) => [r.number, r.place, 0, 0, 0, 0, 0],
    }
}
