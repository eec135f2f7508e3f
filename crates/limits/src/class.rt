// The site class: 7.
ghost use Rattle.std.specs.Prelude.{◌≡◌};
ghost use Rattle.limits.specs.Class.{judged_class};
ghost use Rattle.limits.specs.Outcome.{outcome};

use crate::refusal::{Number, Refusal};

// The site class of Table 3, by its number.
#[derive(Clone, Copy, Debug, PartialEq, Eq)]
pub enum Class {
    Hard = 1,
    Normal = 2,
    Soft = 3,
}

impl TryFrom<u64> for Class {
    type Error = Refusal;

    ghost try_from_gives = { λ number answer. outcome answer ≡ judged_class number };

    #[tactic(auto, unfolding(crate::specs::Class::judged_class))]
    fn try_from(number: u64) -> Result<Class, Refusal> {
        match number {
            1 => Ok(Class::Hard),
            2 => Ok(Class::Normal),
            3 => Ok(Class::Soft),
            _ => Err(Number::Class.into()),
        }
    }
}
