// What is judged of a file of sheets: 22, how many bytes and how many sheets it has.
ghost use Rattle.std.specs.Prelude.{◌≡◌};
ghost use Rattle.limits.specs.Outcome.{outcome};
ghost use Rattle.sheets.specs.Judged.{judged_file};

use crate::split::count_sheets;
use limits::district::District;
use limits::refusal::{Number, Refusal};
use limits::sheet::Sheet;

// As many sheets as a district may have, each of the most bytes and with the empty line that ends it.
pub const BYTES_MOST: usize = District::JOBS_MOST * (Sheet::BYTES_MOST as usize + 1);

pub fn judged_file(file: &[u8]) -> Result<(), Refusal>
    ensures { outcome result ≡ judged_file file.now }
{
    if file.len() <= BYTES_MOST && count_sheets(file) <= District::JOBS_MOST {
        Ok(())
    } else {
        Err(Number::District.into())
    }
}
