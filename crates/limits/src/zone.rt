// The micro-zone of the Taipei Basin: 18.
ghost use Rattle.std.specs.Prelude.{◌≡◌};
ghost use Rattle.limits.specs.Outcome.{outcome};
ghost use Rattle.limits.specs.Zone.{judged_zone};

use crate::refusal::{Number, Refusal};

// The micro-zone of Table 4, by its number.
#[derive(Clone, Copy, Debug, PartialEq, Eq)]
pub enum Zone {
    One = 1,
    Two = 2,
    Three = 3,
    Four = 4,
}

impl TryFrom<u64> for Zone {
    type Error = Refusal;

    ghost try_from_gives = { λ number answer. outcome answer ≡ judged_zone number };

    #[tactic(auto, unfolding(crate::specs::Zone::judged_zone))]
    fn try_from(number: u64) -> Result<Zone, Refusal> {
        match number {
            1 => Ok(Zone::One),
            2 => Ok(Zone::Two),
            3 => Ok(Zone::Three),
            4 => Ok(Zone::Four),
            _ => Err(Number::Zone.into()),
        }
    }
}
