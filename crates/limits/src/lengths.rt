// Lists and result buffers beside one another: 2, of a job, of the distribution, of drift and moments and of a soil log.
ghost use Rattle.std.specs.Prelude.{◌≡◌};
ghost use Rattle.limits.specs.Lengths.{same_length, roomy};
ghost use Rattle.limits.specs.Outcome.{outcome};

use crate::ranges::require;
use crate::refusal::{Number, Refusal};

// 2: a list as long as the one that it stands beside.
pub fn same_length(list: usize, beside: usize) -> Result<(), Refusal>
    ensures { outcome result ≡ same_length list beside }
{
    require(beside == list, Number::Lengths.into())
}

// 2: a cell of a result buffer for each level.
pub fn roomy(levels: usize, cells: usize) -> Result<(), Refusal>
    ensures { outcome result ≡ roomy levels cells }
{
    require(levels <= cells, Number::Lengths.into())
}
