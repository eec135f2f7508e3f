// Runs the job call on the cases of standard input, and says what comes back: the answer, and every cell of the three buffers.
#![tactic(auto)]

use cases::entered::{ground, in_order};
use cases::said::{Answer, Tabbed};
use job::figures::figures;
use job::job;
use limits::frame::FrameValues;
use limits::judging::GivenValues;
use rows::Numbers;
use std::io;
use streams::goes_on::GoesOn;

// What the ground is: 0 a site, 1 a zone of the Taipei Basin.
const IN_BASIN: u64 = 1;

// In fixed memory, a count beside them: no heap, as `streams::ROOM`.
// The most weights, heights and cells of a buffer that a case has.
const LISTED: usize = 60;

// A case is its ground, its frame, how many weights and heights it has, the lengths of the buffers of forces, shears and overturning moments, what
// each cell of the three holds before the call, its weights and its heights.
fn case(rt: &impl Print, numbers: &mut Numbers) -> io::Result<()> {
    let in_basin = numbers.number() == IN_BASIN;
    let given = GivenValues {
        ground: ground(in_basin, numbers.row()),
        frame: FrameValues::of(&numbers.row::<5>()),
    };
    // read as in run_calls: a struct of the two lists and three buffers would be taken apart for the call
    let weight_count = numbers.at_most(LISTED);
    let height_count = numbers.at_most(LISTED);
    let force_cells = numbers.at_most(LISTED);
    let shear_cells = numbers.at_most(LISTED);
    let overturning_cells = numbers.at_most(LISTED);
    let mut forces = [numbers.number(); LISTED];
    let mut shears = [numbers.number(); LISTED];
    let mut overturnings = [numbers.number(); LISTED];
    let weights: [u64; LISTED] = numbers.row_of(weight_count);
    let heights: [u64; LISTED] = numbers.row_of(height_count);
    let weights = &weights[..weight_count];
    let heights = &heights[..height_count];
    let forces = &mut forces[..force_cells];
    let shears = &mut shears[..shear_cells];
    let overturnings = &mut overturnings[..overturning_cells];
    let a = job(given, weights, heights, forces, shears, overturnings);
    println!(rt; "{}", Answer(a.map(in_order)))?;
    println!(rt; "forces{}", Tabbed(forces))?;
    println!(rt; "shears{}", Tabbed(shears))?;
    println!(rt; "moments{}", Tabbed(overturnings))?;
    let a = figures(given, weights, heights);
    println!(rt; "without buffers {}", Answer(a.map(in_order)))
}

// The first number says how many cases follow. A write that fails stops none that follows, and what was printed is then not what is wanted.
// Each program of cases has such a `main`: a function cannot hand out a part of an array of its own.
fn main(rt: HostRuntime) {
    let mut input = [0; streams::ROOM];
    let n = streams::read_full(&mut rt.stdin(), &mut input);
    let mut numbers = Numbers { rest: &input[..n] };
    let count = numbers.number();
    let _ = (0..count).try_for_each(|_| case(&GoesOn(&rt), &mut numbers));
}
