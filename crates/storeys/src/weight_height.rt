// P and P_x: weight times height, added.
ghost use Rattle.std.specs.Prelude.{◌≡◌, ◌<◌, length, drop};
ghost use Rattle.storeys.specs.Reach.{Weighing};
ghost use Rattle.storeys.specs.Storeys.{weight_height};

// Two lists, as the head of the crate says why.
// P: weight times height, added over the levels.
pub fn weight_height(weights: &[u64], heights: &[u64]) -> u64
    requires { Weighing weights.now heights.now }
    ensures { result ≡ weight_height weights.now heights.now }
{
    weights.iter().zip(heights).map(|(w, h)| w * h).sum()
}

// P of the levels handed on but the lowest, with that of all at hand.
#[tactic(auto, using(crate::proofs::Sums::lowest_level))]
pub fn above_lowest(p: u64, weights: &[u64], heights: &[u64]) -> u64
    requires { Weighing weights.now heights.now × (0 < length weights.now) × (p ≡ weight_height weights.now heights.now) }
    ensures { result ≡ weight_height (drop 1 weights.now) (drop 1 heights.now) }
{
    p - weights[0] * heights[0]
}
