// The three hazards of a judged ground: all that is known of it from here on.
ghost use Rattle.std.specs.Prelude.{◌≡◌, ◌≤◌};
ghost use Rattle.limits.specs.Allowed.{AllowedGround};
ghost use Rattle.site.specs.Ground.{ground_hazards};

use crate::basin::basin_hazards;
use crate::hazard::Hazards;
use crate::site_hazards::site_hazards;
use limits::ground::Ground;

// R is a number judged with its frame: a type of the judged R would be built of `Frame::r` for this one call.
pub fn ground_hazards(ground: Ground, r: u64) -> Hazards
    requires { AllowedGround ground × (100 ≤ r) × (r ≤ 600) }
    ensures { result ≡ ground_hazards ground r }
{
    match ground {
        Ground::Site(site) => site_hazards(site, r),
        Ground::Basin(zone) => basin_hazards(zone, r),
    }
}
