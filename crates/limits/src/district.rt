// A district: up to 256 jobs that name stretches of one store of levels; 21 of a stretch, 22 of the whole call.
ghost use Rattle.std.specs.Prelude.{◌≡◌};
ghost use Rattle.limits.specs.District.{judged_stretch, judged_district};
ghost use Rattle.limits.specs.Outcome.{outcome};

use crate::ranges::require;
use crate::refusal::{Number, Refusal};

// A stretch of a store: where it starts, from 0, and how many levels it has.
#[derive(Clone, Copy)]
pub struct Stretch {
    pub start: u64,
    pub count: u64,
}

impl Stretch {
    // 21, in a store of so many levels: start and count are not added, as the sum could wrap.
    #[tactic(auto, unfolding(crate::specs::District::judged_stretch))]
    pub fn judged(self, store: u64) -> Result<(), Refusal>
        ensures { outcome result ≡ judged_stretch store self.start self.count }
    {
        require(
            self.start <= store && self.count <= store - self.start,
            Number::Stretch.into(),
        )
    }
}

// A district: how many jobs it has.
#[derive(Clone, Copy)]
pub struct District {
    pub jobs: usize,
}

impl District {
    pub const JOBS_MOST: usize = 256;

    // 22, of the whole call: how many jobs, weights and heights of the store, and rows it has.
    #[tactic(auto, unfolding(crate::specs::District::judged_district))]
    pub fn judged(jobs: usize, weights: usize, heights: usize, rows: usize) -> Result<(), Refusal>
        ensures { outcome result ≡ judged_district jobs weights heights rows }
    {
        require(
            jobs <= Self::JOBS_MOST && heights == weights && jobs <= rows,
            Number::District.into(),
        )
    }
}
