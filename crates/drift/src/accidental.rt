// Accidental moments (2.5.2): the force of each level, moved each way by 5% of the plan dimension.
ghost use Rattle.std.specs.Prelude.{◌≡◌, ◌≤◌, ◌<◌, length};
ghost use Rattle.whole.specs.Cells.{laid};
ghost use Rattle.storeys.specs.Reach.{Load, Falling, Standing};
ghost use Rattle.storeys.specs.Storeys.{forces};
ghost use Rattle.drift.specs.Accidental.{accidental_moment, each_way, moments_at, MomentAnswers};
ghost use Rattle.drift.specs.Reach.{Carried};

use limits::drift::judged_moments;
use limits::handed::Handed;
use limits::level::Level;
use limits::refusal::Refusal;
use storeys::level_force::level_force;
use storeys::shear::fill_shears;

// How far the mass is moved each way, in hundredths of the dimension.
const PER_CENT: u64 = 5;

// As many shears as a building can have levels.
const LEVELS: usize = Level::MOST as usize;

// Force in N times five times the dimension in dm: hundredths of a N·dm, with nothing to round.
fn accidental_moment(force: u64, dimension: u64) -> u64
    requires { (force ≤ 1_400_000_000) × (dimension ≤ 5_000) }
    ensures { result ≡ accidental_moment force dimension }
{
    force * (PER_CENT * dimension)
}

// The moments of every level each way, out of the shears under the levels, into the first cells of the two buffers.
fn fill_each_way(shears: &[u64], dimension: u64, positive: &mut [i64], negative: &mut [i64])
    requires { Falling shears.now × Carried shears.now × (dimension ≤ 5_000) × (length shears.now ≤ length positive.old) × (length shears.now ≤ length negative.old) }
    ensures { (positive.new ≡ laid (each_way dimension (forces shears.now)).positive positive.old) × (negative.new ≡ laid (each_way dimension (forces shears.now)).negative negative.old) }
{
    // By its place: of the cells that a `zip` of two `iter_mut` lends a proof does not know what was written.
    for x in 0..shears.len() {
        let moment = accidental_moment(level_force(shears, x), dimension) as i64;
        positive[x] = moment;
        negative[x] = -moment;
    }
}

// A base shear in N at a period in ms, as they are handed in, weights in kN, heights and a plan dimension in dm: the accidental moment of each level in
// the lent buffers, in 0.01 N·dm, positive in one, negative in the other.
// Lists and buffers come apart, as `rukeshomaji_accidental_moments` has them of C.
#[tactic(auto, unfolding(crate::specs::Accidental::moments_of))]
pub fn accidental_moments(
    handed: Handed,
    weights: &[u64],
    heights: &[u64],
    dimension: u64,
    positive: &mut [i64],
    negative: &mut [i64],
) -> Result<(), Refusal>
    ensures { MomentAnswers handed.shear handed.period weights.now heights.now dimension (record { positive = positive.old; negative = negative.old }) result (record { positive = positive.new; negative = negative.new }) }
{
    let room = positive.len().min(negative.len());
    judged_moments(handed, weights, heights, dimension, room)?;
    let mut room_for_shears = [0u64; LEVELS];
    let shears = &mut room_for_shears[..weights.len()];
    fill_shears(handed.period, handed.shear, weights, heights, shears);
    fill_each_way(shears, dimension, positive, negative);
    Ok(())
}
