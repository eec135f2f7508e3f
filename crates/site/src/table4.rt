// Table 4 of document 000: the corner period of each micro-zone of the Taipei Basin, T0 of the design level and of the MCE level alike.
ghost use Rattle.std.specs.Prelude.{◌≡◌};
ghost use Rattle.site.specs.Table4.{corner_period};

use limits::zone::Zone;

// T0 of a zone, in ms.
pub fn corner_period(zone: Zone) -> u64
    ensures { result ≡ corner_period zone }
{
    match zone {
        Zone::One => 1_600,
        Zone::Two => 1_300,
        Zone::Three => 1_050,
        Zone::Four => 850,
    }
}
