// Torsion (2.5.2): the amplification factor of a floor.
ghost use Rattle.std.specs.Prelude.{◌≡◌, ◌≤◌, ◌<◌};
ghost use Rattle.drift.specs.Torsion.{torsion_factor, TorsionAnswers};

use limits::floor::Floor;
use limits::refusal::Refusal;
use whole::quotients::up;

// 1.2 squared is 36 / 25; 25,000 are its 25 in thousandths.
const DIVIDEND: u64 = 25_000;

const DIVISOR: u64 = 36;

// 3.0, which the factor is not required to exceed, in thousandths.
const FACTOR_MOST: u64 = 3_000;

// (22), in thousandths, up, and at most 3.0.
#[tactic(auto, using(crate::proofs::Factor::in_whole))]
fn torsion_factor(floor: Floor) -> u64
    requires { (floor.largest ≤ 1_000_000) × (0 < floor.average) × (floor.average ≤ 1_000_000) }
    ensures { result ≡ torsion_factor floor.largest floor.average }
{
    up(
        DIVIDEND * (floor.largest * floor.largest),
        DIVISOR * (floor.average * floor.average),
    )
    .min(FACTOR_MOST)
}

// A floor, its largest and its average displacement in 0.01 mm, without a sign: the factor in thousandths, or why not.
#[tactic(auto, using(limits::proofs::AcceptedDrift::floor_allowed), unfolding(crate::specs::Torsion::torsion_of))]
pub fn torsion(floor: Floor) -> Result<u64, Refusal>
    ensures { TorsionAnswers floor.largest floor.average result }
{
    floor.judged()?;
    Ok(torsion_factor(floor))
}
