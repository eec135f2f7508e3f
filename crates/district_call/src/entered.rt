// A job of a district as C lends it, for which it is a struct: eighteen numbers, the first a flag.
ghost use Rattle.std.specs.Prelude.{◌≡◌};
ghost use Rattle.district_call.specs.Entered.{entered};

use limits::district::Stretch;
use limits::frame::FrameValues;
use limits::ground::GroundValues;
use limits::site::SiteValues;

// How many numbers a job has, and where each stands: the Basin or a site, the zone, nine of a site, five of a frame, the stretch.
pub const JOB: usize = 18;
// 0 on a site; anything else in the Taipei Basin.
const ON_SITE: u64 = 0;

// The ground of a job: its site, or its zone.
pub fn ground_in(j: &[u64; JOB]) -> GroundValues
    ensures { result ≡ (entered j.now).ground }
{
    if j[0] == ON_SITE {
        return GroundValues::Site(SiteValues::of(&j[2..11]));
    }
    GroundValues::Basin(j[1])
}

// The frame of a job.
pub fn frame_in(j: &[u64; JOB]) -> FrameValues
    ensures { result ≡ (entered j.now).frame }
{
    FrameValues::of(&j[11..16])
}

// The stretch of the store that a job names.
pub fn stretch_in(j: &[u64; JOB]) -> Stretch
    ensures { result ≡ record { start = (entered j.now).start; count = (entered j.now).count } }
{
    Stretch {
        start: j[16],
        count: j[17],
    }
}
