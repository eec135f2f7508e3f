// What comes back when data is bad: a refusal, and the numbers it may have.
ghost use Rattle.std.specs.Prelude.{◌≡◌};
ghost use Rattle.limits.specs.Number.{number_of};

// The numbers of 'What comes back when data is bad'.
#[derive(Clone, Copy, Debug, PartialEq, Eq)]
pub enum Number {
    // no level, or over 50
    Levels = 1,
    // lists of unequal length, or a result buffer shorter than them
    Lengths = 2,
    Weight = 3,
    Height = 4,
    Mapped = 5,
    NearFault = 6,
    Class = 7,
    R = 8,
    I = 9,
    AlphaY = 10,
    Kind = 11,
    Period = 12,
    // no layer, or over 40
    Layers = 13,
    Thickness = 14,
    // unknown layer kind, or value out of range
    Layer = 15,
    // sheet line not as laid out
    Line = 16,
    // sheet over 4,096 bytes
    Sheet = 17,
    // zone not 1 to 4
    Zone = 18,
    // base shear handed in out of range
    BaseShear = 19,
    // period handed in out of range
    PeriodHanded = 20,
    // a stretch outside the store, of a row of a district
    Stretch = 21,
    // over 256 jobs, lists of unequal length or a row buffer too short, of a whole district
    District = 22,
    // a displacement out of range, of a level or of a floor
    Displacement = 23,
    // a limit of the drift angle out of range
    DriftLimit = 24,
    // an average displacement of a floor that is 0 or above the largest
    Average = 25,
    // a plan dimension out of range
    Dimension = 26,
}

// A refusal: document 01's number, and its place, 0 where none is named. Both are any u64, as what prints or hands on a refusal promises it of any:
// `put_refusal`, `row_of`.
#[derive(Clone, Copy, Debug, PartialEq, Eq)]
pub struct Refusal {
    pub number: u64,
    pub place: u64,
}

impl Refusal {
    // the place of a refusal for which none is named
    pub const NOWHERE: u64 = 0;

    pub fn at(number: Number, place: u64) -> Refusal
        ensures { result ≡ record { number = number_of number; place = place } }
    {
        Refusal {
            number: number as u64,
            place,
        }
    }
}

// A refusal for which no place is named.
impl From<Number> for Refusal {
    ghost from_gives = { λ n r. r ≡ record { number = number_of n; place = 0 } };

    fn from(number: Number) -> Refusal {
        Refusal::at(number, Refusal::NOWHERE)
    }
}
