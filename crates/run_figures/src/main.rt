// Document 01's 'Figures to hold it to', in ten-millionths: each beside the figure that was worked out.
#![tactic(auto)]

ghost use Rattle.std.specs.Prelude.{◌*◌, ◌≤◌, ◌<◌};

use job::job;
use limits::class::Class;
use limits::frame::FrameValues;
use limits::ground::GroundValues;
use limits::judging::GivenValues;
use limits::kind::Kind;
use limits::layer::LayerKind;
use limits::site::SiteValues;
use response::UNIT;
use response::period::approximate;
use response::ratio::modified;
use response::spectrum::spectrum;
use site::capacity::{design_square, mce_square};
use site::coefficients::{acceleration_a, acceleration_b, fa, fv};
use site::lines::LINES;
use std::fmt::Display;
use std::io;
use streams::goes_on::GoesOn;
use whole::Fraction;
use whole::roots::lower_root;

const MILLIONTHS: u64 = 1_000_000;

fn hold(rt: &impl Print, name: impl Display + Drop, got: u64, stated: u64) -> io::Result<()> {
    if got == stated {
        println!(rt; "{name}: {got}, as stated")
    } else {
        println!(rt; "{name}: {got}, but stated {stated}")
    }
}

fn hard_spectrum(t: u64) -> u64
    requires { t ≤ 509_000 }
{
    let a = acceleration_a(Class::Hard, 8000);
    let b = acceleration_b(Class::Hard, 4500);
    spectrum(UNIT, a, b, t)
}

fn spectra(rt: &impl Print) -> io::Result<()> {
    let stated = [
        (112, 7_978_667),
        (113, 8_000_000),
        (563, 7_992_896),
        (1406, 3_200_569),
        (1407, 3_200_000),
    ];
    for (t, stated) in stated {
        hold(
            rt,
            format_args!("spectrum, hard 80/45, T {t}"),
            hard_spectrum(t),
            stated,
        )?;
    }
    Ok(())
}

fn ratios(rt: &impl Print) -> io::Result<()> {
    let stated = [
        (2_999_999, 2_999_999),
        (3_000_000, 3_000_000),
        (3_000_001, 3_000_001),
        (7_999_999, 5_600_000),
        (8_000_000, 5_600_000),
        (8_000_001, 5_600_001),
    ];
    for (q, stated) in stated {
        hold(
            rt,
            format_args!("ratio {q}"),
            modified(UNIT, LINES, q),
            stated,
        )?;
    }
    Ok(())
}

fn root(s: u64, square: Fraction) -> u64
    requires { (0 < s) × (s ≤ 10_000_000) × (0 < square.num) × (0 < square.den) × (square.den ≤ 1000) × (square.num ≤ 11 * square.den) }
{
    lower_root(s, square)
}

// The root is a function of its unit.
fn roots(rt: &impl Print, name: &str, s: u64, stated: [u64; 4]) -> io::Result<()>
    requires { (0 < s) × (s ≤ 10_000_000) }
{
    let [design, mce, least_design, least_mce] = stated;
    hold(
        rt,
        format_args!("{name}, design, R 480"),
        root(s, design_square(480)),
        design,
    )?;
    hold(
        rt,
        format_args!("{name}, MCE, R 480"),
        root(s, mce_square(480)),
        mce,
    )?;
    hold(
        rt,
        format_args!("{name}, design, R 100"),
        root(s, design_square(100)),
        least_design,
    )?;
    hold(
        rt,
        format_args!("{name}, MCE, R 100"),
        root(s, mce_square(100)),
        least_mce,
    )
}

fn periods(rt: &impl Print) -> io::Result<()> {
    hold(
        rt,
        "period, kind 2, 300 dm",
        approximate(Kind::Concrete, 300),
        897,
    )?;
    hold(rt, "period, kind 4, 1 dm", approximate(Kind::Other, 1), 8)?;
    hold(
        rt,
        "period, kind 1, 2000 dm",
        approximate(Kind::Steel, 2000),
        4520,
    )
}

fn velocity(kind: LayerKind, count: u64) -> u64 {
    soil::velocity::velocity(kind as u64, count, 1).unwrap_or(0)
}

fn velocities(rt: &impl Print) -> io::Result<()> {
    hold(
        rt,
        "velocity, cohesive, N 25",
        velocity(LayerKind::Cohesive, 25),
        2924,
    )?;
    hold(
        rt,
        "velocity, cohesionless, N 50",
        velocity(LayerKind::Cohesionless, 50),
        2947,
    )
}

fn coefficients(rt: &impl Print) -> io::Result<()> {
    hold(rt, "F_a, normal, 6500", fa(Class::Normal, 6500), 10_500)?;
    hold(rt, "F_v, soft, 3200", fv(Class::Soft, 3200), 17_600)
}

// The worked sheet's listing, by the job call: its figures, and its levels, roof first.
fn listing(rt: &impl Print) -> io::Result<()> {
    let site = SiteValues {
        ssd: 80,
        s1d: 45,
        ssm: 100,
        s1m: 55,
        nad: 100,
        nvd: 100,
        nam: 100,
        nvm: 100,
        class: Class::Hard as u64,
    };
    let frame = FrameValues {
        kind: Kind::Concrete as u64,
        calculated: 1000,
        r: 480,
        i: 100,
        alpha: 150,
    };
    let mut forces = [0; 3];
    let mut shears = [0; 3];
    let mut overturnings = [0; 3];
    let a = job(
        GivenValues {
            ground: GroundValues::Site(site),
            frame,
        },
        &[5000; 3],
        &[100, 200, 300],
        &mut forces,
        &mut shears,
        &mut overturnings,
    );
    let Ok(f) = a else {
        return Ok(());
    };
    hold(rt, "V", f.v, 909_704)?;
    hold(rt, "V_M", f.vm, 818_453)?;
    hold(rt, "V*", f.star, 1_071_429)?;
    hold(rt, "V_D", f.vd, 1_071_429)?;
    hold(rt, "T", f.t, 1000)?;
    let [force1, force2, force3] = forces;
    let [shear1, shear2, shear3] = shears;
    let [overturning1, overturning2, overturning3] = overturnings;
    hold(rt, "level 3, force", force3, 573_215)?;
    hold(rt, "level 3, shear", shear3, 573_215)?;
    hold(rt, "level 3, overturning", overturning3, 57_321_500)?;
    hold(rt, "level 2, force", force2, 332_143)?;
    hold(rt, "level 2, shear", shear2, 905_358)?;
    hold(rt, "level 2, overturning", overturning2, 147_857_300)?;
    hold(rt, "level 1, force", force1, 166_071)?;
    hold(rt, "level 1, shear", shear1, 1_071_429)?;
    hold(rt, "level 1, overturning", overturning1, 255_000_200)
}

fn run(rt: &impl Print) -> io::Result<()> {
    spectra(rt)?;
    ratios(rt)?;
    roots(
        rt,
        "lower root",
        UNIT,
        [24_630_604, 29_325_756, 10_000_000, 10_000_000],
    )?;
    // document 01's own figures
    roots(
        rt,
        "in millionths",
        MILLIONTHS,
        [2_463_060, 2_932_575, 1_000_000, 1_000_000],
    )?;
    periods(rt)?;
    velocities(rt)?;
    coefficients(rt)?;
    listing(rt)
}

// A write that fails stops none that follows, and what was printed is then not what is wanted.
fn main(rt: HostRuntime) {
    let _ = run(&GoesOn(&rt));
}
