// Runs the judgments on changed copies of one good job, as standard input gives them, and says what comes back of each.
#![tactic(auto)]

use cases::changed::change;
use cases::said::InWords;
use fields::{
    FIELDS, FRAME, GROUND, HEIGHT_COUNT, HEIGHTS, LISTED, NAMES, ROOM, SITE, WEIGHT_COUNT, WEIGHTS,
    ZONE,
};
use limits::frame::FrameValues;
use limits::ground::GroundValues;
use limits::judging::{Given, GivenValues, judged_given};
use limits::levels::judged_levels;
use limits::refusal::Refusal;
use limits::site::SiteValues;
use rows::Numbers;
use std::io;
use streams::goes_on::GoesOn;

mod fields;

// The changes of a case, each a field and its value.
const CHANGES: u64 = 4;

const IN_BASIN: u64 = 1;

// Writes a field's name, eight bytes wide, its level where it has one, and its value.
fn say_field(rt: &impl Print, at: usize, value: u64) -> io::Result<()> {
    if let Some(name) = NAMES.get(at) {
        print!(rt; "{name:<8}")?;
    } else if let Some(below) = at.checked_sub(HEIGHTS) {
        print!(rt; "height  {}: ", below + 1)?;
    } else if let Some(below) = at.checked_sub(WEIGHTS) {
        print!(rt; "weight  {}: ", below + 1)?;
    } else {
        print!(rt; "weight  ")?;
    }
    print!(rt; "{value}; ")
}

fn judged(job: &[u64; FIELDS]) -> Result<Given, Refusal> {
    let ground = if job[GROUND] == IN_BASIN {
        GroundValues::Basin(job[ZONE])
    } else {
        GroundValues::Site(SiteValues::of(&job[SITE..]))
    };
    let frame = FrameValues::of(&job[FRAME..]);
    // so many levels, or as many as the array has
    let weights_end = WEIGHTS + (job[WEIGHT_COUNT] as usize).min(LISTED);
    let heights_end = HEIGHTS + (job[HEIGHT_COUNT] as usize).min(LISTED);
    let levels = judged_levels(
        &job[WEIGHTS..weights_end],
        &job[HEIGHTS..heights_end],
        job[ROOM] as usize,
    );
    judged_given(levels, GivenValues { ground, frame })
}

// The good job with some fields changed.
fn case(rt: &impl Print, good: &[u64; FIELDS], numbers: &mut Numbers) -> io::Result<()> {
    let mut job = *good;
    for _ in 0..CHANGES {
        if let Some((at, value)) = change(&mut job, numbers) {
            say_field(rt, at, value)?;
        }
    }
    match judged(&job) {
        Ok(_) => println!(rt; "taken"),
        Err(r) => println!(rt; "{}", InWords(r)),
    }
}

// The first number says how many cases follow the good job. A write that fails stops none that follows, and what was printed is then not what is wanted.
// Each program of cases has such a `main`: a function cannot hand out a part of an array of its own.
fn main(rt: HostRuntime) {
    let mut input = [0; streams::ROOM];
    let n = streams::read_full(&mut rt.stdin(), &mut input);
    let mut numbers = Numbers { rest: &input[..n] };
    let count = numbers.number();
    let good = numbers.row();
    let _ = (0..count).try_for_each(|_| case(&GoesOn(&rt), &good, &mut numbers));
}
