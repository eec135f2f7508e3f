// Runs the entry on changed copies of plain logs, as standard input gives them, and says what comes back of each; then the
// velocity of every N and of every q.
#![tactic(auto)]

use cases::changed::change;
use cases::said::InWords;
use fields::{
    FIELDS, KIND_COUNT, KINDS, LISTED, THICKNESS_COUNT, THICKNESSES, VALUE_COUNT, VALUES,
};
use limits::class::Class;
use limits::layer::{Layer, LayerKind};
use limits::refusal::Refusal;
use rows::Numbers;
use soil::log::site_class;
use soil::velocity::velocity;
use std::io;
use streams::goes_on::GoesOn;

mod fields;

// The changes of a case, each a field and its value.
const CHANGES: u64 = 3;

// So many layers of one thickness, each with the same measured velocity.
fn plain(layers: u64, thickness: u64, velocity: u64) -> [u64; FIELDS] {
    let mut log = [0; FIELDS];
    log[THICKNESS_COUNT] = layers;
    log[KIND_COUNT] = layers;
    log[VALUE_COUNT] = layers;
    log[THICKNESSES..THICKNESSES + LISTED].fill(thickness);
    log[KINDS..KINDS + LISTED].fill(LayerKind::Measured as u64);
    log[VALUES..VALUES + LISTED].fill(velocity);
    log
}

// Writes a field's name, its layer where it has one, and its value.
fn say_field(rt: &impl Print, at: usize, value: u64) -> io::Result<()> {
    if let Some(above) = at.checked_sub(VALUES) {
        print!(rt; "value {}: ", above + 1)?;
    } else if let Some(above) = at.checked_sub(KINDS) {
        print!(rt; "kind {}: ", above + 1)?;
    } else if let Some(above) = at.checked_sub(THICKNESSES) {
        print!(rt; "thickness {}: ", above + 1)?;
    } else {
        let name = match at {
            THICKNESS_COUNT => "thicknesses",
            KIND_COUNT => "kinds",
            VALUE_COUNT => "values",
            _ => "thickness",
        };
        print!(rt; "{name} ")?;
    }
    print!(rt; "{value}; ")
}

// The thicknesses, kinds and values of a log, as many as their counts say, or as the array has.
fn classed(log: &[u64; FIELDS]) -> Result<Class, Refusal> {
    let thicknesses_end = THICKNESSES + (log[THICKNESS_COUNT] as usize).min(LISTED);
    let kinds_end = KINDS + (log[KIND_COUNT] as usize).min(LISTED);
    let values_end = VALUES + (log[VALUE_COUNT] as usize).min(LISTED);
    site_class(
        &log[THICKNESSES..thicknesses_end],
        &log[KINDS..kinds_end],
        &log[VALUES..values_end],
    )
}

// A case is a plain log by its layers, their thickness and velocity, and its changes.
fn case(rt: &impl Print, numbers: &mut Numbers) -> io::Result<()> {
    let [layers, thickness, velocity]: [u64; 3] = numbers.row();
    print!(rt; "{layers} of {thickness} cm at {velocity} dm/s; ")?;
    let mut log = plain(layers, thickness, velocity);
    for _ in 0..CHANGES {
        if let Some((at, value)) = change(&mut log, numbers) {
            say_field(rt, at, value)?;
        }
    }
    match classed(&log) {
        Ok(Class::Hard) => println!(rt; "hard"),
        Ok(Class::Normal) => println!(rt; "normal"),
        Ok(Class::Soft) => println!(rt; "soft"),
        Err(r) => println!(rt; "{}", InWords(r)),
    }
}

// The velocity of each value from 0 up to below `past`, or its refusal. Both kinds by N are run past the larger of their limits.
fn velocities(rt: &impl Print, kind: LayerKind, past: u64) -> io::Result<()> {
    let of = if kind == LayerKind::SoftClay {
        "q"
    } else {
        "N"
    };
    let kind = kind as u64;
    for value in 0..past {
        print!(rt; "kind {kind}, {of} {value}: ")?;
        match velocity(kind, value, 1) {
            Ok(v) => println!(rt; "{v}"),
            Err(r) => println!(rt; "{}", InWords(r)),
        }?;
    }
    Ok(())
}

// The first number says how many cases follow.
fn run(rt: &impl Print, mut numbers: Numbers) -> io::Result<()> {
    for _ in 0..numbers.number() {
        case(rt, &mut numbers)?;
    }
    velocities(rt, LayerKind::Cohesive, Layer::COHESIONLESS_MOST + 2)?;
    velocities(rt, LayerKind::Cohesionless, Layer::COHESIONLESS_MOST + 2)?;
    velocities(rt, LayerKind::SoftClay, Layer::SOFT_CLAY_MOST + 2)
}

// A write that fails stops none that follows, and what was printed is then not what is wanted.
fn main(rt: HostRuntime) {
    let mut input = [0; streams::ROOM];
    let n = streams::read_full(&mut rt.stdin(), &mut input);
    let numbers = Numbers { rest: &input[..n] };
    let _ = run(&GoesOn(&rt), numbers);
}
