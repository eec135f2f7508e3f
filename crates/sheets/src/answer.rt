// What a sheet of a file is answered.
ghost use Rattle.std.specs.Prelude.{◌≡◌};
ghost use Rattle.limits.specs.Outcome.{outcome};
ghost use Rattle.sheets.specs.Answers.{sheet_answer};

use district_call::weighed::{Weighed, weighed_job};
use limits::refusal::Refusal;
use sheet::reader::read_sheet;

// One level more than a job may have is kept, so that the job itself refuses the count.
pub fn sheet_answer(s: &[u8]) -> Result<Weighed, Refusal>
    ensures { outcome result ≡ sheet_answer s.now }
{
    let read = read_sheet(s)?;
    let levels = &read.levels;
    weighed_job(read.given, levels.weights(), levels.heights())
}
