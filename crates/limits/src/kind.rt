// The frame kind: 11.
ghost use Rattle.std.specs.Prelude.{◌≡◌};
ghost use Rattle.limits.specs.Kind.{judged_kind};
ghost use Rattle.limits.specs.Outcome.{outcome};

use crate::refusal::{Number, Refusal};

// The frame kind, by its number: steel frame, RC or SRC frame, eccentric brace, other.
#[derive(Clone, Copy, Debug, PartialEq, Eq)]
pub enum Kind {
    Steel = 1,
    Concrete = 2,
    Braced = 3,
    Other = 4,
}

impl TryFrom<u64> for Kind {
    type Error = Refusal;

    ghost try_from_gives = { λ number answer. outcome answer ≡ judged_kind number };

    #[tactic(auto, unfolding(crate::specs::Kind::judged_kind))]
    fn try_from(number: u64) -> Result<Kind, Refusal> {
        match number {
            1 => Ok(Kind::Steel),
            2 => Ok(Kind::Concrete),
            3 => Ok(Kind::Braced),
            4 => Ok(Kind::Other),
            _ => Err(Number::Kind.into()),
        }
    }
}
