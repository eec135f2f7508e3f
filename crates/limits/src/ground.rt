// The ground of a job: a site, or a zone of the Taipei Basin; 5 to 7, or 18 in their place.
ghost use Rattle.std.specs.Prelude.{◌≡◌};
ghost use Rattle.limits.specs.Ground.{judged_ground};
ghost use Rattle.limits.specs.Outcome.{outcome};

use crate::refusal::Refusal;
use crate::site::{Site, SiteValues};
use crate::zone::Zone;

// The ground as it comes: a site line, or the number of a zone. No number of either means 'none'.
#[derive(Clone, Copy)]
pub enum GroundValues {
    Site(SiteValues),
    Basin(u64),
}

// The ground, judged. A type of its own, as `Site` is beside `SiteValues`.
#[derive(Clone, Copy)]
pub enum Ground {
    Site(Site),
    Basin(Zone),
}

impl Ground {
    // 5 to 7 of a site, 18 of a zone.
    pub fn judged(v: GroundValues) -> Result<Ground, Refusal>
        ensures { outcome result ≡ judged_ground v }
    {
        match v {
            GroundValues::Site(values) => Ok(Ground::Site(Site::judged(values)?)),
            GroundValues::Basin(number) => Ok(Ground::Basin(Zone::try_from(number)?)),
        }
    }
}
