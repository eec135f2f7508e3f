// The response of a frame: period, spectrum, roots, reduction factor, modified ratio. Everything takes its unit s: figures are
// whole numbers of s-ths.
#![tactic(auto)]

pub mod factor;
pub mod period;
pub mod ratio;
pub mod side;
pub mod spectrum;

// Ten-millionths.
pub const UNIT: u64 = 10_000_000;
