// Runs drift, torsion and accidental moments on the cases of standard input, and says what comes back: the answer, and every cell of the buffers.
#![tactic(auto)]

use cases::said::{Answer, Tabbed};
use drift::accidental::accidental_moments;
use drift::storey_drift::drift;
use drift::torsion::torsion;
use limits::floor::Floor;
use limits::handed::Handed;
use rows::Numbers;
use std::io;
use streams::goes_on::GoesOn;

// The first number of a case: 0 a drift, 1 a torsion, any other accidental moments.
const DRIFT: u64 = 0;

const TORSION: u64 = 1;

// In fixed memory, a count beside them: no heap, as `streams::ROOM`.
// The most numbers of a list and cells of a buffer that a case has.
const LISTED: usize = 52;

// 1 where a number is below zero.
const BELOW: u64 = 1;

// A number with its sign: whether it is below zero, and its size. A size that no number has stands for the largest one, and behind a 1 for the least.
fn signed(numbers: &mut Numbers) -> i64 {
    let below = numbers.number();
    let size = numbers.number();
    if below == BELOW {
        0i64.saturating_sub_unsigned(size)
    } else {
        0i64.saturating_add_unsigned(size)
    }
}

// Of a drift it follows how many heights and displacements there are, the limit, how many cells the buffer of verdicts has, what each holds before
// the call, the heights and the displacements.
fn drift_case(rt: &impl Print, numbers: &mut Numbers) -> io::Result<()> {
    let height_count = numbers.at_most(LISTED);
    let displacement_count = numbers.at_most(LISTED);
    let limit = numbers.number();
    let cells = numbers.at_most(LISTED);
    let mut verdicts = [numbers.number(); LISTED];
    let heights: [u64; LISTED] = numbers.row_of(height_count);
    let mut displacements = [0; LISTED];
    let displacements = &mut displacements[..displacement_count];
    for displacement in displacements.iter_mut() {
        *displacement = signed(numbers);
    }
    let verdicts = &mut verdicts[..cells];
    let a = drift(&heights[..height_count], displacements, limit, verdicts);
    println!(rt; "{}", Answer(a.map(|()| [])))?;
    println!(rt; "verdicts{}", Tabbed(verdicts))
}

// Of a torsion the largest and the average displacement follow.
fn torsion_case(rt: &impl Print, numbers: &mut Numbers) -> io::Result<()> {
    let floor = Floor {
        largest: numbers.number(),
        average: numbers.number(),
    };
    let a = torsion(floor);
    println!(rt; "{}", Answer(a.map(|factor| [factor])))
}

// Of accidental moments base shear and period follow, how many weights and heights there are, the dimension, how many cells the two buffers have,
// what each holds before the call, the weights and the heights.
fn moments_case(rt: &impl Print, numbers: &mut Numbers) -> io::Result<()> {
    let handed = Handed {
        shear: numbers.number(),
        period: numbers.number(),
    };
    let weight_count = numbers.at_most(LISTED);
    let height_count = numbers.at_most(LISTED);
    let dimension = numbers.number();
    let positive_cells = numbers.at_most(LISTED);
    let negative_cells = numbers.at_most(LISTED);
    let mut positive = [signed(numbers); LISTED];
    let mut negative = [signed(numbers); LISTED];
    let weights: [u64; LISTED] = numbers.row_of(weight_count);
    let heights: [u64; LISTED] = numbers.row_of(height_count);
    let positive = &mut positive[..positive_cells];
    let negative = &mut negative[..negative_cells];
    let a = accidental_moments(
        handed,
        &weights[..weight_count],
        &heights[..height_count],
        dimension,
        positive,
        negative,
    );
    println!(rt; "{}", Answer(a.map(|()| [])))?;
    println!(rt; "positive{}", Tabbed(positive))?;
    println!(rt; "negative{}", Tabbed(negative))
}

fn case(rt: &impl Print, numbers: &mut Numbers) -> io::Result<()> {
    match numbers.number() {
        DRIFT => drift_case(rt, numbers),
        TORSION => torsion_case(rt, numbers),
        _ => moments_case(rt, numbers),
    }
}

// The first number says how many cases follow. A write that fails stops none that follows, and what was printed is then not what is wanted.
// Each program of cases has such a `main`: a function cannot hand out a part of an array of its own.
fn main(rt: HostRuntime) {
    let mut input = [0; streams::ROOM];
    let n = streams::read_full(&mut rt.stdin(), &mut input);
    let mut numbers = Numbers { rest: &input[..n] };
    let count = numbers.number();
    let _ = (0..count).try_for_each(|_| case(&GoesOn(&rt), &mut numbers));
}
