// Runs the shear call and the distribution on the cases of standard input, and says what comes back: the answer, and of a distribution every
// cell of the three buffers.
#![tactic(auto)]

use cases::entered::{ground, in_order};
use cases::said::{Answer, Tabbed};
use job::distribution::distribution;
use job::shear_call::shear_call;
use limits::building::Building;
use limits::frame::FrameValues;
use limits::handed::Handed;
use limits::judging::GivenValues;
use rows::Numbers;
use std::io;
use streams::goes_on::GoesOn;

// The first number of a case: 0 a shear call on a site, 1 one in the Taipei Basin, any other a distribution.
const IN_BASIN: u64 = 1;

// In fixed memory, a count beside them: no heap, as `streams::ROOM`.
// The most weights, heights and cells of a buffer that a case has.
const LISTED: usize = 60;

// Of a shear call ground, frame, weight and height follow.
fn shear_case(rt: &impl Print, in_basin: bool, numbers: &mut Numbers) -> io::Result<()> {
    let given = GivenValues {
        ground: ground(in_basin, numbers.row()),
        frame: FrameValues::of(&numbers.row::<5>()),
    };
    let building = Building {
        weight: numbers.number(),
        height: numbers.number(),
    };
    let a = shear_call(given, building);
    println!(rt; "{}", Answer(a.map(in_order)))
}

// Of a distribution base shear and period follow, how many weights and heights there are, the lengths of the buffers of forces, shears and overturning
// moments, what each cell of the three holds before the call, the weights and the heights.
fn distribution_case(rt: &impl Print, numbers: &mut Numbers) -> io::Result<()> {
    let handed = Handed {
        shear: numbers.number(),
        period: numbers.number(),
    };
    let weight_count = numbers.at_most(LISTED);
    let height_count = numbers.at_most(LISTED);
    let force_cells = numbers.at_most(LISTED);
    let shear_cells = numbers.at_most(LISTED);
    let overturning_cells = numbers.at_most(LISTED);
    let mut forces = [numbers.number(); LISTED];
    let mut shears = [numbers.number(); LISTED];
    let mut overturnings = [numbers.number(); LISTED];
    let weights: [u64; LISTED] = numbers.row_of(weight_count);
    let heights: [u64; LISTED] = numbers.row_of(height_count);
    let forces = &mut forces[..force_cells];
    let shears = &mut shears[..shear_cells];
    let overturnings = &mut overturnings[..overturning_cells];
    let a = distribution(
        handed,
        &weights[..weight_count],
        &heights[..height_count],
        forces,
        shears,
        overturnings,
    );
    println!(rt; "{}", Answer(a.map(|()| [])))?;
    println!(rt; "forces{}", Tabbed(forces))?;
    println!(rt; "shears{}", Tabbed(shears))?;
    println!(rt; "moments{}", Tabbed(overturnings))
}

fn case(rt: &impl Print, numbers: &mut Numbers) -> io::Result<()> {
    let kind = numbers.number();
    if kind <= IN_BASIN {
        shear_case(rt, kind == IN_BASIN, numbers)
    } else {
        distribution_case(rt, numbers)
    }
}

// The first number says how many cases follow. A write that fails stops none that follows, and what was printed is then not what is wanted.
// Each program of cases has such a `main`: a function cannot hand out a part of an array of its own.
fn main(rt: HostRuntime) {
    let mut input = [0; streams::ROOM];
    let n = streams::read_full(&mut rt.stdin(), &mut input);
    let mut numbers = Numbers { rest: &input[..n] };
    let count = numbers.number();
    let _ = (0..count).try_for_each(|_| case(&GoesOn(&rt), &mut numbers));
}
