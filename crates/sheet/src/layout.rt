// The lines of a sheet: which line is which, and how many numbers follow its word.
// Line 1 is `site`, with one pair of near-fault factors for both hazard levels or with a pair for each; or `basin` in its place.
pub const GROUND_LINE: u64 = 1;

pub const ONE_PAIR_NUMBERS: usize = 7;

pub const TWO_PAIRS_NUMBERS: usize = 9;

pub const BASIN_NUMBERS: usize = 1;
// Line 2 is `frame`.
pub const FRAME_LINE: u64 = 2;

pub const FRAME_NUMBERS: usize = 5;
// All later lines are `level`.
pub const LEVEL_LINE: u64 = 3;

pub const LEVEL_NUMBERS: usize = 2;
