// One job with class 2, 3 and 2 again: the first and the third run agree, and the second is that of a fresh run.
#![tactic(auto)]

use base_shear::Figures;
use cases::entered::in_order;
use cases::said::Tabbed;
use job::figures::figures;
use limits::class::Class;
use limits::frame::FrameValues;
use limits::ground::GroundValues;
use limits::judging::GivenValues;
use limits::kind::Kind;
use limits::site::SiteValues;
use std::io;
use streams::goes_on::GoesOn;

fn run(class: Class) -> Figures {
    let site = SiteValues {
        ssd: 70,
        s1d: 40,
        ssm: 90,
        s1m: 50,
        nad: 112,
        nvd: 123,
        nam: 112,
        nvm: 123,
        class: class as u64,
    };
    let frame = FrameValues {
        kind: Kind::Concrete as u64,
        calculated: 700,
        r: 480,
        i: 125,
        alpha: 150,
    };
    let given = GivenValues {
        ground: GroundValues::Site(site),
        frame,
    };
    figures(given, &[15_000], &[300]).unwrap_or_default()
}

fn say(rt: &impl Print) -> io::Result<()> {
    let first = in_order(run(Class::Normal));
    let second = in_order(run(Class::Soft));
    let third = in_order(run(Class::Normal));
    println!(rt; "class 2{}", Tabbed(&first))?;
    println!(rt; "class 3{}", Tabbed(&second))?;
    println!(rt; "class 2{}", Tabbed(&third))?;
    if first == third {
        println!(rt; "first and third: the same")?;
    }
    if first == second {
        println!(rt; "first and second: the same")?;
    }
    Ok(())
}

// A write that fails stops none that follows, and what was printed is then not what is wanted.
fn main(rt: HostRuntime) {
    let _ = say(&GoesOn(&rt));
}
