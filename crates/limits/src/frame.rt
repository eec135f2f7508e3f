// The frame line of a job: kind, calculated period, R, I and alpha-y, with their limits and their judgments, 8 to 12.
ghost use Rattle.std.specs.Prelude.{◌≡◌, ◌≤◌, length};
ghost use Rattle.limits.specs.Frame.{frame_values, judged_period, judged_frame};
ghost use Rattle.limits.specs.Outcome.{outcome};

use crate::kind::Kind;
use crate::ranges::{listed, within};
use crate::refusal::{Number, Refusal};

// The frame line as it comes: kind; calculated period in ms; R, I and alpha-y in 0.01.
#[derive(Clone, Copy)]
pub struct FrameValues {
    pub kind: u64,
    pub calculated: u64,
    pub r: u64,
    pub i: u64,
    pub alpha: u64,
}

impl FrameValues {
    // Of the five numbers of a frame line, in its order: no `From`, as it asks for so many.
    pub fn of(numbers: &[u64]) -> FrameValues
        requires { 5 ≤ length numbers.now }
        ensures { result ≡ frame_values numbers.now }
    {
        FrameValues {
            kind: numbers[0],
            calculated: numbers[1],
            r: numbers[2],
            i: numbers[3],
            alpha: numbers[4],
        }
    }
}

// The frame line, judged.
// As they come and as judged are two types: one over the type of the kind would put a type argument into every contract and definition that names either.
#[derive(Clone, Copy)]
pub struct Frame {
    pub kind: Kind,
    pub calculated: u64,
    pub r: u64,
    pub i: u64,
    pub alpha: u64,
}

impl Frame {
    pub const R_LEAST: u64 = 100;

    pub const R_MOST: u64 = 600;

    pub const I_VALUES: [u64; 3] = [100, 125, 150];

    pub const ALPHA_LEAST: u64 = 100;

    pub const ALPHA_MOST: u64 = 200;
    // Zero means 'none' for the calculated period, and for nothing else.
    pub const NO_PERIOD: u64 = 0;

    pub const PERIOD_LEAST: u64 = 1;

    pub const PERIOD_MOST: u64 = 60_000;

    // 12: the calculated period.
    #[tactic(auto, unfolding(crate::specs::Frame::judged_period))]
    fn judged_period(calculated: u64) -> Result<(), Refusal>
        ensures { outcome result ≡ judged_period calculated }
    {
        if calculated == Self::NO_PERIOD {
            return Ok(());
        }
        within(
            Self::PERIOD_LEAST,
            Self::PERIOD_MOST,
            calculated,
            Number::Period.into(),
        )
    }

    // 8 to 12 in turn: `judged`, as of all that is judged; docs/PROMISES.md names it.
    #[tactic(auto, unfolding(crate::specs::Frame::judged_frame))]
    pub fn judged(v: FrameValues) -> Result<Frame, Refusal>
        ensures { outcome result ≡ judged_frame v }
    {
        within(Self::R_LEAST, Self::R_MOST, v.r, Number::R.into())?;
        listed(&Self::I_VALUES, v.i, Number::I.into())?;
        within(
            Self::ALPHA_LEAST,
            Self::ALPHA_MOST,
            v.alpha,
            Number::AlphaY.into(),
        )?;
        let kind = Kind::try_from(v.kind)?;
        Self::judged_period(v.calculated)?;
        Ok(Frame {
            kind,
            calculated: v.calculated,
            r: v.r,
            i: v.i,
            alpha: v.alpha,
        })
    }
}
