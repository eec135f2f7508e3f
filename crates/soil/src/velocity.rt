// The velocity of a layer by its kind: measured, by its blow count (3.a), (3.b), or by its unconfined compression strength (3.a).
ghost use Rattle.std.specs.Prelude.{◌≡◌, ◌+◌, ◌<◌, length};
ghost use Rattle.limits.specs.Outcome.{outcome};
ghost use Rattle.soil.specs.Velocity.{measured, from_table, velocity};

use crate::tables::{COHESIONLESS, COHESIVE, SOFT_CLAY};
use limits::layer::{Layer, LayerKind};
use limits::ranges::within;
use limits::refusal::{Number, Refusal};

// A measured velocity, in dm/s.
#[tactic(auto, unfolding(crate::specs::Velocity::measured))]
fn measured(value: u64, place: u64) -> Result<u64, Refusal>
    ensures { outcome result ≡ measured value place }
{
    within(
        Layer::VELOCITY_LEAST,
        Layer::VELOCITY_MOST,
        value,
        Refusal::at(Number::Layer, place),
    )?;
    Ok(value)
}

// The velocity in dm/s that a value from least to most gives, N or q, by the table of those velocities.
#[tactic(auto, unfolding(crate::specs::Velocity::from_table), using(limits::proofs::Passed::within_passed))]
fn by_table(
    least: u64,
    most: u64,
    velocities: &[u16],
    value: u64,
    place: u64,
) -> Result<u64, Refusal>
    requires { most < least + length velocities.now }
    ensures { outcome result ≡ from_table least most velocities.now value place }
{
    within(least, most, value, Refusal::at(Number::Layer, place))?;
    Ok(u64::from(velocities[(value - least) as usize]))
}

// 15: the velocity of a layer in dm/s, by its kind and value.
#[tactic(auto, using(crate::proofs::ByKind::of_measured, crate::proofs::ByKind::of_cohesive, crate::proofs::ByKind::of_cohesionless, crate::proofs::ByKind::of_soft_clay, crate::proofs::ByKind::of_none))]
pub fn velocity(kind: u64, value: u64, place: u64) -> Result<u64, Refusal>
    ensures { outcome result ≡ velocity kind value place }
{
    let kind = LayerKind::try_from(kind).map_err(|r| Refusal { place, ..r })?;
    match kind {
        LayerKind::Measured => measured(value, place),
        LayerKind::Cohesive => by_table(
            Layer::COHESIVE_LEAST,
            Layer::COHESIVE_MOST,
            &COHESIVE,
            value,
            place,
        ),
        LayerKind::Cohesionless => by_table(
            Layer::COHESIONLESS_LEAST,
            Layer::COHESIONLESS_MOST,
            &COHESIONLESS,
            value,
            place,
        ),
        LayerKind::SoftClay => by_table(
            Layer::SOFT_CLAY_LEAST,
            Layer::SOFT_CLAY_MOST,
            &SOFT_CLAY,
            value,
            place,
        ),
    }
}
