// A whole district in one call: up to 256 jobs that share a store of levels, a row for each, and a report.
#![tactic(auto)]

use entered::JOB;
use limits::district::District;
use limits::refusal::Refusal;
use report::{CELLS, Report, Totals, count_in};
use row::{ROW, answer_to, row_of};

pub mod entered;
pub mod report;
pub mod row;
pub mod weighed;

ghost use Rattle.std.specs.Prelude.{◌≡◌, map, ◌≤◌, length};
ghost use Rattle.whole.specs.Cells.{laid};
ghost use Rattle.limits.specs.Outcome.{outcome};
ghost use Rattle.district_call.specs.District.{answers_to, reported, DistrictAnswers};
ghost use Rattle.district_call.specs.Report.{report_of};
ghost use Rattle.district_call.specs.Row.{row_of};

// A row for each job, over the first rows of the buffer, and the report. Weights and heights are two lists, as C lends them and `job` takes them.
fn fill_rows(
    jobs: &[[u64; JOB]],
    weights: &[u64],
    heights: &[u64],
    rows: &mut [[u64; ROW]],
) -> Report
    requires { (length jobs.now ≤ 256) × (length heights.now ≡ length weights.now) × (length jobs.now ≤ length rows.old) }
    ensures value { result ≡ report_of (answers_to jobs.now weights.now heights.now) }
    ensures rows_after { rows.new ≡ laid (map row_of (answers_to jobs.now weights.now heights.now)) rows.old }
{
    let mut totals = Totals::default();
    let mut cells = [0; CELLS];
    for (i, j) in jobs.iter().enumerate() {
        let a = answer_to(j, weights, heights);
        // By its place: of the cells that a `zip` with `iter_mut` lends a proof does not know what was written.
        rows[i] = row_of(a);
        totals = totals.with_answer(a);
        count_in(&mut cells, a);
    }
    Report { totals, cells }
}

// The district: a row for each job in the lent buffer, and the report; or 22, with nothing written.
#[tactic(auto, using(crate::proofs::Districts::district_fits, crate::proofs::Districts::passed_answers))]
pub fn district(
    jobs: &[[u64; JOB]],
    weights: &[u64],
    heights: &[u64],
    rows: &mut [[u64; ROW]],
) -> Result<Report, Refusal>
    ensures { DistrictAnswers jobs.now weights.now heights.now rows.old result rows.new }
{
    District::judged(jobs.len(), weights.len(), heights.len(), rows.len())?;
    Ok(fill_rows(jobs, weights, heights, rows))
}

// The report that comes back of a district: of one that is refused, that of no job.
pub fn reported(answer: Result<Report, Refusal>) -> Report
    ensures { result ≡ reported (outcome answer) }
{
    answer.unwrap_or_default()
}
