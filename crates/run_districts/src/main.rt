// Runs the district call on the cases of standard input, and says what comes back: the answer, every row of the buffer and the report.
#![tactic(auto)]

ghost use Rattle.std.specs.Prelude.{◌≤◌};

use cases::said::{Answer, Tabbed};
use district_call::entered::JOB;
use district_call::report::Report;
use district_call::row::ROW;
use district_call::{district, reported};
use rows::Numbers;
use std::io;
use streams::goes_on::GoesOn;

// In fixed memory, a count beside them: no heap, as `streams::ROOM`.
// The most jobs and rows that a case has.
const LISTED: usize = 260;
// The most weights and heights that a case has.
const LEVELS: usize = 120;

// The jobs that are given come first, and each further one is the next of these in turn.
fn jobs(given: usize, numbers: &mut Numbers) -> [[u64; JOB]; LISTED]
    requires { given ≤ 260 }
{
    let mut jobs = [[0; JOB]; LISTED];
    let (first, others) = jobs.split_at_mut(given);
    for job in first.iter_mut() {
        *job = numbers.row();
    }
    for (job, again) in others.iter_mut().zip(first.iter().cycle()) {
        *job = *again;
    }
    jobs
}

// A case is how many jobs it has and how many of them are given, how many weights and heights, how many rows the buffer has, what each cell of each
// row holds before the call, the jobs that are given, the weights and the heights.
fn case(rt: &impl Print, numbers: &mut Numbers) -> io::Result<()> {
    let job_count = numbers.at_most(LISTED);
    let given = numbers.at_most(LISTED);
    let weight_count = numbers.at_most(LEVELS);
    let height_count = numbers.at_most(LEVELS);
    let row_count = numbers.at_most(LISTED);
    let mut rows = [[numbers.number(); ROW]; LISTED];
    let jobs = jobs(given, numbers);
    let weights: [u64; LEVELS] = numbers.row_of(weight_count);
    let heights: [u64; LEVELS] = numbers.row_of(height_count);
    let rows = &mut rows[..row_count];
    let a = district(
        &jobs[..job_count],
        &weights[..weight_count],
        &heights[..height_count],
        rows,
    );
    println!(rt; "{}", Answer(a.map(|_| [])))?;
    for row in rows.iter() {
        println!(rt; "row{}", Tabbed(row))?;
    }
    let Report { totals, cells } = reported(a);
    let totals = [
        totals.accepted,
        totals.refused,
        totals.sum,
        totals.v,
        totals.vm,
        totals.star,
    ];
    println!(rt; "report{}{}", Tabbed(&totals), Tabbed(&cells))
}

// The first number says how many cases follow. A write that fails stops none that follows, and what was printed is then not what is wanted.
// Each program of cases has such a `main`: a function cannot hand out a part of an array of its own.
fn main(rt: HostRuntime) {
    let mut input = [0; streams::ROOM];
    let n = streams::read_full(&mut rt.stdin(), &mut input);
    let mut numbers = Numbers { rest: &input[..n] };
    let count = numbers.number();
    let _ = (0..count).try_for_each(|_| case(&GoesOn(&rt), &mut numbers));
}
