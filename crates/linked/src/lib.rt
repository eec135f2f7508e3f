// The entries as a program in C, or in any language that calls C, sees them: pointers and 64-bit numbers alone. Each returns the number
// of its refusal, 0 on success, and answers through an array that the caller lends, whose every cell is written; the distribution, drift and
// the accidental moments through a cell for the place.
#![tactic(auto)]

use arrays::{REPORT, put_figures, put_number, put_report, said};
use district_call::entered::JOB;
use district_call::row::ROW;
use district_call::{district, reported};
use drift::accidental::accidental_moments;
use job::distribution::distribution;
use limits::building::Building;
use limits::floor::Floor;
use limits::frame::FrameValues;
use limits::ground::GroundValues;
use limits::handed::Handed;
use limits::judging::GivenValues;
use limits::site::SiteValues;
use sheet::listing::LONGEST;
use sheet::put_in_array;

pub mod arrays;

ghost use Rattle.std.specs.Prelude.{◌≡◌};
ghost use Rattle.limits.specs.Frame.{frame_values};
ghost use Rattle.limits.specs.Judging.{given_values};
ghost use Rattle.linked.specs.Linked.{on_site, in_basin, JobReplies, FiguresReplies, ShearCallReplies, DistributionReplies, DistrictReplies, DriftReplies, TorsionReplies, MomentsReplies, LogReplies, SheetReplies, version, edition, source};

// The version of the library: 1,000,000 times the major number, 1,000 times the minor one, and the last.
pub const VERSION: u64 = 2_006_000;

// The edition of the code: Taiwan's of 2005.
pub const EDITION: u64 = 2_005;

// The state of the rules (CHANGELOG.md says what each number has). A change of what any call answers takes the next number.
pub const SOURCE: u64 = 6;

// What is given on a ground, with a frame line.
fn given_on(ground: GroundValues, frame: &[u64; 5]) -> GivenValues
    ensures { result ≡ given_values ground (frame_values frame.now) }
{
    GivenValues {
        ground,
        frame: FrameValues::of(frame),
    }
}

// A job on a ground, and its reply.
fn job_on(
    ground: GroundValues,
    frame: &[u64; 5],
    weights: &[u64],
    heights: &[u64],
    forces: &mut [u64],
    shears: &mut [u64],
    overturnings: &mut [u64],
    figures: &mut [u64; 6],
) -> u64
    ensures { JobReplies ground frame.now weights.now heights.now (record { forces = forces.old; shears = shears.old; overturnings = overturnings.old }) result figures.new (record { forces = forces.new; shears = shears.new; overturnings = overturnings.new }) }
{
    let given = given_on(ground, frame);
    let a = job::job(given, weights, heights, forces, shears, overturnings);
    put_figures(figures, a)
}

// The five figures of a job on a ground, and their reply.
fn figures_on(
    ground: GroundValues,
    frame: &[u64; 5],
    weights: &[u64],
    heights: &[u64],
    figures: &mut [u64; 6],
) -> u64
    ensures { FiguresReplies ground frame.now weights.now heights.now result figures.new }
{
    let given = given_on(ground, frame);
    let a = job::figures::figures(given, weights, heights);
    put_figures(figures, a)
}

// A shear call on a ground, and its reply.
fn shear_call_on(
    ground: GroundValues,
    frame: &[u64; 5],
    weight: u64,
    height: u64,
    figures: &mut [u64; 6],
) -> u64
    ensures { ShearCallReplies ground frame.now weight height result figures.new }
{
    let given = given_on(ground, frame);
    let a = job::shear_call::shear_call(given, Building { weight, height });
    put_figures(figures, a)
}

// The job on a site: a force, a shear and an overturning moment of each level in the lent buffers, place and figures in `figures`.
#[unsafe(no_mangle)]
pub extern "C" fn rukeshomaji_job(
    site: &[u64; 9],
    frame: &[u64; 5],
    weights: &[u64],
    heights: &[u64],
    forces: &mut [u64],
    shears: &mut [u64],
    overturnings: &mut [u64],
    figures: &mut [u64; 6],
) -> u64
    ensures { JobReplies (on_site site.now) frame.now weights.now heights.now (record { forces = forces.old; shears = shears.old; overturnings = overturnings.old }) result figures.new (record { forces = forces.new; shears = shears.new; overturnings = overturnings.new }) }
{
    let ground = GroundValues::Site(SiteValues::of(site));
    job_on(
        ground,
        frame,
        weights,
        heights,
        forces,
        shears,
        overturnings,
        figures,
    )
}

// The five figures of a job on a site, with no buffer to write to.
#[unsafe(no_mangle)]
pub extern "C" fn rukeshomaji_figures(
    site: &[u64; 9],
    frame: &[u64; 5],
    weights: &[u64],
    heights: &[u64],
    figures: &mut [u64; 6],
) -> u64
    ensures { FiguresReplies (on_site site.now) frame.now weights.now heights.now result figures.new }
{
    let ground = GroundValues::Site(SiteValues::of(site));
    figures_on(ground, frame, weights, heights, figures)
}

// The same job in a zone of the Taipei Basin. There is no zone number for 'no zone'.
#[unsafe(no_mangle)]
pub extern "C" fn rukeshomaji_basin_job(
    zone: u64,
    frame: &[u64; 5],
    weights: &[u64],
    heights: &[u64],
    forces: &mut [u64],
    shears: &mut [u64],
    overturnings: &mut [u64],
    figures: &mut [u64; 6],
) -> u64
    ensures { JobReplies (in_basin zone) frame.now weights.now heights.now (record { forces = forces.old; shears = shears.old; overturnings = overturnings.old }) result figures.new (record { forces = forces.new; shears = shears.new; overturnings = overturnings.new }) }
{
    job_on(
        GroundValues::Basin(zone),
        frame,
        weights,
        heights,
        forces,
        shears,
        overturnings,
        figures,
    )
}

// The five figures of a job in a zone of the Taipei Basin.
#[unsafe(no_mangle)]
pub extern "C" fn rukeshomaji_basin_figures(
    zone: u64,
    frame: &[u64; 5],
    weights: &[u64],
    heights: &[u64],
    figures: &mut [u64; 6],
) -> u64
    ensures { FiguresReplies (in_basin zone) frame.now weights.now heights.now result figures.new }
{
    figures_on(GroundValues::Basin(zone), frame, weights, heights, figures)
}

// The shear call on a site: V, V_M, V*, V_D and T of a total weight in kN and a top height in dm.
#[unsafe(no_mangle)]
pub extern "C" fn rukeshomaji_shear_call(
    site: &[u64; 9],
    frame: &[u64; 5],
    weight: u64,
    height: u64,
    figures: &mut [u64; 6],
) -> u64
    ensures { ShearCallReplies (on_site site.now) frame.now weight height result figures.new }
{
    let ground = GroundValues::Site(SiteValues::of(site));
    shear_call_on(ground, frame, weight, height, figures)
}

// The shear call in a zone of the Taipei Basin.
#[unsafe(no_mangle)]
pub extern "C" fn rukeshomaji_basin_shear_call(
    zone: u64,
    frame: &[u64; 5],
    weight: u64,
    height: u64,
    figures: &mut [u64; 6],
) -> u64
    ensures { ShearCallReplies (in_basin zone) frame.now weight height result figures.new }
{
    shear_call_on(GroundValues::Basin(zone), frame, weight, height, figures)
}

// The distribution of a base shear in N at a period in ms: a force, a shear and an overturning moment of each level in the lent buffers, its
// place in `place`.
#[unsafe(no_mangle)]
pub extern "C" fn rukeshomaji_distribution(
    base_shear: u64,
    period: u64,
    weights: &[u64],
    heights: &[u64],
    forces: &mut [u64],
    shears: &mut [u64],
    overturnings: &mut [u64],
    place: &mut u64,
) -> u64
    ensures { DistributionReplies base_shear period weights.now heights.now (record { forces = forces.old; shears = shears.old; overturnings = overturnings.old }) result place.new (record { forces = forces.new; shears = shears.new; overturnings = overturnings.new }) }
{
    let handed = Handed {
        shear: base_shear,
        period,
    };
    let a = distribution(handed, weights, heights, forces, shears, overturnings);
    // said so of drift and moments too: one function would hide which cell is written
    let (number, at) = said(a.err());
    *place = at;
    number
}

// A whole district: a row for each job in the lent buffer, the report in `report`. The one refusal of the whole call, 22, has no place.
#[unsafe(no_mangle)]
pub extern "C" fn rukeshomaji_district(
    jobs: &[[u64; JOB]],
    weights: &[u64],
    heights: &[u64],
    rows: &mut [[u64; ROW]],
    report: &mut [u64; REPORT],
) -> u64
    ensures { DistrictReplies jobs.now weights.now heights.now rows.old result report.new rows.new }
{
    let a = district(jobs, weights, heights, rows);
    put_report(report, &reported(a));
    let (number, _) = said(a.err());
    number
}

// The drift of each storey by displacements in 0.01 mm and a limit in ten-thousandths: a verdict of each in the lent buffer, 1 yes, 0 no; the place of a
// refusal in `place`.
#[unsafe(no_mangle)]
pub extern "C" fn rukeshomaji_drift(
    heights: &[u64],
    displacements: &[i64],
    limit: u64,
    verdicts: &mut [u64],
    place: &mut u64,
) -> u64
    ensures { DriftReplies heights.now displacements.now limit verdicts.old result place.new verdicts.new }
{
    let a = drift::storey_drift::drift(heights, displacements, limit, verdicts);
    let (number, at) = said(a.err());
    *place = at;
    number
}

// The torsion factor of a floor by its largest and its average displacement in 0.01 mm: place, and the factor in thousandths.
#[unsafe(no_mangle)]
pub extern "C" fn rukeshomaji_torsion(largest: u64, average: u64, reply: &mut [u64; 2]) -> u64
    ensures { TorsionReplies largest average result reply.new }
{
    put_number(reply, drift::torsion::torsion(Floor { largest, average }))
}

// The accidental moments of each level by a base shear in N, a period in ms and a plan dimension in dm: in 0.01 N·dm, positive in one lent buffer and
// negative in the other; the place of a refusal in `place`.
#[unsafe(no_mangle)]
pub extern "C" fn rukeshomaji_accidental_moments(
    shear: u64,
    period: u64,
    weights: &[u64],
    heights: &[u64],
    dimension: u64,
    positive: &mut [i64],
    negative: &mut [i64],
    place: &mut u64,
) -> u64
    ensures { MomentsReplies shear period weights.now heights.now dimension (record { positive = positive.old; negative = negative.old }) result place.new (record { positive = positive.new; negative = negative.new }) }
{
    let a = accidental_moments(
        Handed { shear, period },
        weights,
        heights,
        dimension,
        positive,
        negative,
    );
    let (number, at) = said(a.err());
    *place = at;
    number
}

// The site class of a soil log: place and class.
#[unsafe(no_mangle)]
pub extern "C" fn rukeshomaji_site_class(
    thicknesses: &[u64],
    kinds: &[u64],
    values: &[u64],
    reply: &mut [u64; 2],
) -> u64
    ensures { LogReplies thicknesses.now kinds.now values.now result reply.new }
{
    let a = soil::log::site_class(thicknesses, kinds, values);
    put_number(reply, a.map(|class| class as u64))
}

// The listing of a sheet, or the line of its refusal, over the first bytes of `listing`; in `reply` place, and how many bytes these are.
#[unsafe(no_mangle)]
pub extern "C" fn rukeshomaji_sheet(
    sheet: &[u8],
    listing: &mut [u8; LONGEST],
    reply: &mut [u64; 2],
) -> u64
    ensures { SheetReplies sheet.now listing.old result listing.new reply.new }
{
    let put = put_in_array(listing, sheet);
    let (number, place) = said(put.refusal);
    *reply = [place, put.length as u64];
    number
}

#[unsafe(no_mangle)]
pub extern "C" fn rukeshomaji_version() -> u64
    ensures { result ≡ version }
{
    VERSION
}

#[unsafe(no_mangle)]
pub extern "C" fn rukeshomaji_edition() -> u64
    ensures { result ≡ edition }
{
    EDITION
}

#[unsafe(no_mangle)]
pub extern "C" fn rukeshomaji_source() -> u64
    ensures { result ≡ source }
{
    SOURCE
}
