// What a case enters, by its numbers in the order of a sheet, and the figures that come back, in the order of a listing.
ghost use Rattle.std.specs.Prelude.{◌≡◌};
ghost use Rattle.cases.specs.Entered.{ground_of, in_order};

use base_shear::Figures;
use limits::ground::GroundValues;
use limits::site::SiteValues;

// In the Basin the zone stands where a site's first number does.
pub fn ground(in_basin: bool, numbers: [u64; 9]) -> GroundValues
    ensures { result ≡ ground_of in_basin numbers }
{
    if in_basin {
        GroundValues::Basin(numbers[0])
    } else {
        GroundValues::Site(SiteValues::of(&numbers))
    }
}

// V, V_M, V*, V_D and T.
pub fn in_order(f: Figures) -> [u64; 5]
    ensures { result ≡ in_order f }
{
    [f.v, f.vm, f.star, f.vd, f.t]
}
