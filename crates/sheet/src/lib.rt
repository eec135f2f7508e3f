// A sheet: how it is read, and the listing that it gets.
#![tactic(auto)]

use job::job;
use limits::judging::GivenValues;
use limits::level::Level;
use limits::refusal::Refusal;
use listing::{LONGEST, Listing, put_refusal, put_results};
use reader::read_sheet;

pub mod layout;
pub mod levels;
pub mod listing;
pub mod reader;

ghost use Rattle.std.specs.Prelude.{◌≡◌, ◌≤◌, length};
ghost use Rattle.limits.specs.Outcome.{refused};
ghost use Rattle.job.specs.Job.{job_of};
ghost use Rattle.sheet.specs.Listing.{outcome_of, sheet_listing, longest, printed, Puts};

// Result buffers for every job that is accepted.
const ROOM: usize = Level::MOST as usize;

// What was written into a buffer: how many bytes, and the refusal that they say, if they are no results. The length is within a buffer of the caller.
#[derive(Clone, Copy)]
pub struct Put {
    pub length: usize,
    pub refusal: Option<Refusal>,
}

// Writes the line of a refusal. A buffer may be longer than a listing, as that of a district is: `&mut [u8; LONGEST]` would ask more.
pub fn put_refused(out: &mut [u8], refusal: Refusal) -> Put
    requires { longest ≤ length out.old }
    ensures { Puts (refused refusal.number refusal.place) out.old out.new result }
{
    Put {
        length: put_refusal(out, refusal),
        refusal: Some(refusal),
    }
}

// Two lists, as `judged_levels` of limits says why.
// Does a job and writes its listing. The job refuses over 50 levels before it looks at the buffers.
pub fn put_job(out: &mut [u8], given: GivenValues, weights: &[u64], heights: &[u64]) -> Put
    requires { longest ≤ length out.old }
    ensures { Puts (job_of given.ground given.frame weights.now heights.now (length weights.now)) out.old out.new result }
{
    let mut forces = [0; ROOM];
    let mut shears = [0; ROOM];
    let mut overturnings = [0; ROOM];
    let answer = job(
        given,
        weights,
        heights,
        &mut forces,
        &mut shears,
        &mut overturnings,
    );
    match answer {
        Err(refusal) => put_refused(out, refusal),
        Ok(figures) => {
            let n = weights.len();
            Put {
                length: put_results(out, figures, &forces[..n], &shears[..n], &overturnings[..n]),
                refusal: None,
            }
        }
    }
}

// Writes what is printed for the bytes of a sheet. One level more than a job may have is kept, so that the job itself refuses the count.
pub fn put_sheet(out: &mut [u8], s: &[u8]) -> Put
    requires { longest ≤ length out.old }
    ensures { Puts (outcome_of s.now) out.old out.new result }
{
    match read_sheet(s) {
        Err(refusal) => put_refused(out, refusal),
        Ok(read) => {
            let levels = &read.levels;
            put_job(out, read.given, levels.weights(), levels.heights())
        }
    }
}

// The bytes that are printed for the bytes of a sheet.
pub fn sheet_listing(s: &[u8]) -> Listing
    ensures { result ≡ printed (sheet_listing s.now) }
{
    let mut bytes = [0; LONGEST];
    let put = put_sheet(&mut bytes, s);
    Listing {
        bytes,
        length: put.length,
    }
}

// Writes the listing of a sheet into a lent array, which holds every listing.
pub fn put_in_array(out: &mut [u8; LONGEST], s: &[u8]) -> Put
    ensures { Puts (outcome_of s.now) out.old out.new result }
{
    put_sheet(out, s)
}
