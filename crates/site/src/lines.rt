// The constants of the shears that sites and the Taipei Basin share.

// The three lines of the modified ratio, in thousandths: where the second and the third begin, the second's slope and what it adds, and the third's slope.
#[derive(Clone, Copy)]
pub struct Lines {
    pub first: u64,
    pub second: u64,
    pub slope: u64,
    pub add: u64,
    pub last: u64,
}

// The lines of (8) and (18).
pub const LINES: Lines = Lines {
    first: 300,
    second: 800,
    slope: 520,
    add: 144,
    last: 700,
};

// The divisor of (7) and (17), 1.4, in tenths.
pub const DIVISOR: u64 = 14;
