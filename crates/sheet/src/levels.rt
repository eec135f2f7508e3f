// The level lines of a sheet: all lines from line 3 on, of which those of a job are kept, and one more.
ghost use Rattle.std.specs.Prelude.{◌≡◌, ◌≤◌, take};
ghost use Rattle.sheet.specs.Reading.{level_lines, levels_read, kept_most};

use crate::layout::{LEVEL_LINE, LEVEL_NUMBERS};
use limits::level::Level;
use limits::refusal::{Number, Refusal};
use text::line::line;

// One level more than a job may have: enough for the job to refuse the count.
pub const KEPT: usize = Level::MOST as usize + 1;

// The weights and heights of the levels that are kept, in the first cells, and how many these are: in fixed memory, as a job takes them.
#[derive(Clone, Copy)]
pub struct LevelsRead {
    pub weights: [u64; KEPT],
    pub heights: [u64; KEPT],
    pub count: usize,
}

impl LevelsRead {
    // The weights of the levels that are kept, lowest level first.
    pub fn weights(&self) -> &[u64]
        requires { self.now.count ≤ kept_most }
        ensures { result.now ≡ take self.now.count self.now.weights }
    {
        &self.weights[..self.count]
    }

    // Their heights.
    pub fn heights(&self) -> &[u64]
        requires { self.now.count ≤ kept_most }
        ensures { result.now ≡ take self.now.count self.now.heights }
    {
        &self.heights[..self.count]
    }
}

// All lines: every one is read, KEPT are kept.
pub fn level_lines(s: &[u8]) -> Result<LevelsRead, Refusal>
    ensures { result ≡ levels_read (level_lines s.now) }
{
    let mut weights = [0; KEPT];
    let mut heights = [0; KEPT];
    // Counted by hand: there is no list of lines to go through, as where a line ends is known once it is read.
    let mut n = 0;
    let mut left = s;
    while !left.is_empty() {
        let (numbers, after) = line::<LEVEL_NUMBERS>(left, b"level").ok_or(Refusal::at(
            Number::Line,
            LEVEL_LINE + n as u64,
        ))?;
        let [weight, height] = numbers;
        if n < KEPT {
            weights[n] = weight;
            heights[n] = height;
        }
        n += 1;
        left = after;
    }
    Ok(LevelsRead {
        weights,
        heights,
        count: n.min(KEPT),
    })
}
