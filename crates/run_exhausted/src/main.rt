// What is finite, exhausted: roots and capacities of every R, on a site and in the Taipei Basin, in ten-millionths and in millionths, the period of
// every height and kind, both coefficients of every product of a mapped value and a near-fault factor. (`run_logs` runs the velocity of every
// N and q.) Last, the roots of R = 4.80 place by place, as they are found on paper.
#![tactic(auto)]

ghost use Rattle.std.specs.Prelude.{◌*◌, ◌≤◌, ◌<◌};
ghost use Rattle.whole.specs.Digits.{Place};

use limits::class::Class;
use limits::frame::Frame;
use limits::kind::Kind;
use limits::level::Level;
use limits::site::Site;
use response::UNIT;
use response::period::approximate;
use site::capacity::{
    basin_capacity, basin_square, design_capacity, design_square, mce_capacity, mce_square,
};
use site::coefficients::{fa, fv};
use std::io;
use streams::goes_on::GoesOn;
use whole::Fraction;
use whole::paper::digits_down_to;
use whole::quotients::{down, up};
use whole::roots::{lower_root, upper_root};

// Document 01's own unit.
const MILLIONTHS: u64 = 1_000_000;
// The zeros of the first place on paper.
const FIRST_ZEROS: u32 = 7;

// A square's lower and upper root, in s-ths.
fn roots(rt: &impl Print, s: u64, square: Fraction) -> io::Result<()>
    requires { (0 < s) × (s ≤ 10_000_000) × (0 < square.num) × (0 < square.den) × (square.den ≤ 1000) × (square.num ≤ 11 * square.den) }
{
    let lower = lower_root(s, square);
    let upper = upper_root(s, square);
    print!(rt; " {lower} {upper}")
}

// A capacity, rounded down and up to s-ths.
fn capacity(rt: &impl Print, s: u64, c: Fraction) -> io::Result<()>
    requires { (s ≤ 10_000_000) × (0 < c.den) × (c.num ≤ 2000) }
{
    let low = down(s * c.num, c.den);
    let high = up(s * c.num, c.den);
    print!(rt; " {low} {high}")
}

fn ductilities(rt: &impl Print, s: u64) -> io::Result<()>
    requires { (0 < s) × (s ≤ 10_000_000) }
{
    for r in Frame::R_LEAST..=Frame::R_MOST {
        print!(rt; "R {r}")?;
        roots(rt, s, design_square(r))?;
        roots(rt, s, mce_square(r))?;
        capacity(rt, s, design_capacity(r))?;
        capacity(rt, s, mce_capacity(r))?;
        println!(rt)?;
    }
    Ok(())
}

// The same of the capacities and squares of the Basin, and over other columns.
fn basin_ductilities(rt: &impl Print, s: u64) -> io::Result<()>
    requires { (0 < s) × (s ≤ 10_000_000) }
{
    for r in Frame::R_LEAST..=Frame::R_MOST {
        print!(rt; "basin {r}")?;
        roots(rt, s, basin_square(r))?;
        capacity(rt, s, basin_capacity(r))?;
        println!(rt)?;
    }
    Ok(())
}

// The place with so many zeros.
fn place_at(zeros: u32) -> u64
    requires { zeros ≤ 7 }
    ensures { Place result × (result ≤ 10_000_000) }
{
    10u64.pow(zeros)
}

// Place by place, from the first down to 1, the digits found and what is left beside them, of design and of MCE.
fn on_paper(rt: &impl Print, r: u64) -> io::Result<()>
    requires { (100 ≤ r) × (r ≤ 600) }
{
    let design = design_square(r);
    let mce = mce_square(r);
    for zeros in (0..=FIRST_ZEROS).rev() {
        let place = place_at(zeros);
        let d = digits_down_to(UNIT, design, place);
        let m = digits_down_to(UNIT, mce, place);
        println!(rt;
            "place {place} {} {} {} {}",
            d.found, d.left, m.found, m.left
        )?;
    }
    Ok(())
}

fn heights(rt: &impl Print) -> io::Result<()> {
    for h in Level::HEIGHT_LEAST..=Level::HEIGHT_MOST {
        let steel = approximate(Kind::Steel, h);
        let concrete = approximate(Kind::Concrete, h);
        let braced = approximate(Kind::Braced, h);
        let other = approximate(Kind::Other, h);
        println!(rt; "h {h} {steel} {concrete} {braced} {other}")?;
    }
    Ok(())
}

// A coefficient of a mapped value with every near-fault factor, for each class.
fn products<F: Fn(Class, u64) -> u64>(
    rt: &impl Print,
    name: &str,
    mapped: u64,
    least: u64,
    most: u64,
    coefficient: F,
) -> io::Result<()>
    requires callable { F.IsAlwaysCallable coefficient }
    requires fits { (mapped ≤ 100) × (most ≤ 200) }
{
    for n in least..=most {
        let s = mapped * n;
        let hard = coefficient(Class::Hard, s);
        let normal = coefficient(Class::Normal, s);
        let soft = coefficient(Class::Soft, s);
        println!(rt; "{name} {s} {hard} {normal} {soft}")?;
    }
    Ok(())
}

fn run(rt: &impl Print) -> io::Result<()> {
    ductilities(rt, UNIT)?;
    heights(rt)?;
    for mapped in [50, 60, 70, 80, 90, 100] {
        products(rt, "S_S", mapped, Site::NA_LEAST, Site::NA_MOST, fa)?;
    }
    for mapped in [30, 35, 40, 45, 50, 55] {
        products(rt, "S_1", mapped, Site::NV_LEAST, Site::NV_MOST, fv)?;
    }
    basin_ductilities(rt, UNIT)?;
    ductilities(rt, MILLIONTHS)?;
    basin_ductilities(rt, MILLIONTHS)?;
    on_paper(rt, 480)
}

// A write that fails stops none that follows, and what was printed is then not what is wanted.
fn main(rt: HostRuntime) {
    let _ = run(&GoesOn(&rt));
}
