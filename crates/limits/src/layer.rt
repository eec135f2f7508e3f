// A layer of a soil log: thickness in cm, kind, value, and their limits.
ghost use Rattle.std.specs.Prelude.{◌≡◌};
ghost use Rattle.limits.specs.LayerKind.{judged_layer_kind};
ghost use Rattle.limits.specs.Outcome.{outcome};

use crate::refusal::{Number, Refusal};

#[derive(Clone, Copy)]
pub struct Layer {
    pub thickness: u64,
    pub kind: u64,
    pub value: u64,
}

impl Layer {
    pub const FEWEST: u64 = 1;

    pub const MOST: u64 = 40;
    // What the thicknesses add up to, in cm.
    pub const DEPTH: u64 = 3_000;
    // The limits of a value, by the kind.
    pub const VELOCITY_LEAST: u64 = 500;

    pub const VELOCITY_MOST: u64 = 30_000;

    pub const COHESIVE_LEAST: u64 = 2;

    pub const COHESIVE_MOST: u64 = 25;

    pub const COHESIONLESS_LEAST: u64 = 1;

    pub const COHESIONLESS_MOST: u64 = 50;

    pub const SOFT_CLAY_LEAST: u64 = 1;

    pub const SOFT_CLAY_MOST: u64 = 400;
}

// The kind of a layer, by its number, with what its value is.
#[derive(Clone, Copy, Debug, PartialEq, Eq)]
pub enum LayerKind {
    // a velocity in dm/s
    Measured = 1,
    // a blow count N
    Cohesive = 2,
    // a blow count N
    Cohesionless = 3,
    // an unconfined compression strength q in 0.01 kgf/cm²
    SoftClay = 4,
}

impl TryFrom<u64> for LayerKind {
    type Error = Refusal;

    ghost try_from_gives = { λ number answer. outcome answer ≡ judged_layer_kind number };

    #[tactic(auto, unfolding(crate::specs::LayerKind::judged_layer_kind))]
    fn try_from(number: u64) -> Result<LayerKind, Refusal> {
        match number {
            1 => Ok(LayerKind::Measured),
            2 => Ok(LayerKind::Cohesive),
            3 => Ok(LayerKind::Cohesionless),
            4 => Ok(LayerKind::SoftClay),
            _ => Err(Number::Layer.into()),
        }
    }
}
