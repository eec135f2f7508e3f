// The levels of a job, judged together: 1 to 4. Drift judges their number and their heights.
ghost use Rattle.std.specs.Prelude.{◌≡◌};
ghost use Rattle.limits.specs.Levels.{counted, weighed, raised, judged_levels};
ghost use Rattle.limits.specs.Outcome.{outcome};

use crate::lengths::{roomy, same_length};
use crate::level::Level;
use crate::ranges::within;
use crate::refusal::{Number, Refusal};

// 1: the number of levels.
pub fn counted(levels: usize) -> Result<(), Refusal>
    ensures { outcome result ≡ counted levels }
{
    within(
        Level::FEWEST,
        Level::MOST,
        levels as u64,
        Number::Levels.into(),
    )
}

// 3: the weights. `raised` and `displaced` go through a list so too, each with a judgment of its own.
#[tactic(auto, using(crate::proofs::Lists::weights_step, crate::proofs::Lists::weights_end))]
pub fn weighed(weights: &[u64]) -> Result<(), Refusal>
    ensures { outcome result ≡ weighed 1 weights.now }
{
    for (i, &weight) in weights.iter().enumerate() {
        Level::judged_weight(weight, i as u64 + 1)?;
    }
    Ok(())
}

// 4: the heights.
#[tactic(auto, using(crate::proofs::Lists::heights_step, crate::proofs::Lists::heights_end))]
pub fn raised(heights: &[u64]) -> Result<(), Refusal>
    ensures { outcome result ≡ raised 0 1 heights.now }
{
    let mut below = Level::BASE;
    for (i, &height) in heights.iter().enumerate() {
        Level::judged_height(below, height, i as u64 + 1)?;
        below = height;
    }
    Ok(())
}

// 1 to 4 in turn, with room cells in the shortest result buffer.
// Weights and heights are two lists: a struct of both would make each clause read `levels.now.weights.now`, and every entry of C would build it.
#[tactic(auto, unfolding(crate::specs::Levels::judged_levels))]
pub fn judged_levels(weights: &[u64], heights: &[u64], room: usize) -> Result<(), Refusal>
    ensures { outcome result ≡ judged_levels weights.now heights.now room }
{
    counted(weights.len())?;
    same_length(weights.len(), heights.len())?;
    roomy(weights.len(), room)?;
    weighed(weights)?;
    raised(heights)
}
