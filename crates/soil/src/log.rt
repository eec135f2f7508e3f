// The soil log: judged in the order of its refusals, then timed and classed.
ghost use Rattle.std.specs.Prelude.{◌≡◌};
ghost use Rattle.limits.specs.Outcome.{outcome};
ghost use Rattle.soil.specs.Log.{counted, thick, deep, judged_log, Answers};

use crate::class::{ClassLimits, class_of};
use crate::times::timed;
use limits::class::Class;
use limits::layer::Layer;
use limits::lengths::same_length;
use limits::ranges::{require, within};
use limits::refusal::{Number, Refusal};

// 13: the number of layers.
pub fn counted(layers: usize) -> Result<(), Refusal>
    ensures { outcome result ≡ counted layers }
{
    within(
        Layer::FEWEST,
        Layer::MOST,
        layers as u64,
        Number::Layers.into(),
    )
}

// 14: no layer of thickness 0.
#[tactic(auto, using(crate::proofs::Layers::thick_step, crate::proofs::Layers::thick_end))]
pub fn thick(thicknesses: &[u64]) -> Result<(), Refusal>
    ensures { outcome result ≡ thick 1 thicknesses.now }
{
    for (i, &d) in thicknesses.iter().enumerate() {
        require(d != 0, Refusal::at(Number::Thickness, i as u64 + 1))?;
    }
    Ok(())
}

// 14: thicknesses that add up to the depth. One that is past what is left of it ends the sum, so that no sum wraps.
#[tactic(auto, unfolding(crate::specs::Log::deep), using(whole::proofs::Sums::sum_step, whole::proofs::Sums::sum_end))]
pub fn deep(thicknesses: &[u64]) -> Result<(), Refusal>
    ensures { outcome result ≡ deep thicknesses.now }
{
    let refusal = Number::Thickness.into();
    let mut left = Layer::DEPTH;
    for &d in thicknesses {
        left = left.checked_sub(d).ok_or(refusal)?;
    }
    require(left == 0, refusal)
}

// 2, 13, 14 in turn: all that is judged before the kinds and values.
#[tactic(auto, unfolding(crate::specs::Log::judged_log))]
pub fn judged_log(thicknesses: &[u64], kinds: usize, values: usize) -> Result<(), Refusal>
    ensures { outcome result ≡ judged_log thicknesses.now kinds values }
{
    same_length(thicknesses.len(), kinds)?;
    same_length(thicknesses.len(), values)?;
    counted(thicknesses.len())?;
    thick(thicknesses)?;
    deep(thicknesses)
}

// The site class of a log: thicknesses in cm, kinds and values of its layers, three lists as C lends them.
#[tactic(auto, unfolding(crate::specs::Log::site_class), using(crate::proofs::Sound::log_matched, crate::proofs::Sound::limits_fit))]
pub fn site_class(thicknesses: &[u64], kinds: &[u64], values: &[u64]) -> Result<Class, Refusal>
    ensures { Answers thicknesses.now kinds.now values.now result }
{
    judged_log(thicknesses, kinds.len(), values.len())?;
    let times = timed(thicknesses, kinds, values)?;
    Ok(class_of(ClassLimits::table_3(), times))
}
