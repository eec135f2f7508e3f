// The numbers of a job in one array, as a change names a field by its place there: where each stands.

pub const SITE: usize = 0;

pub const FRAME: usize = 9;

pub const WEIGHT_COUNT: usize = 14;

pub const HEIGHT_COUNT: usize = 15;

pub const ROOM: usize = 16;
// What the ground is: 0 a site, 1 a zone of the Taipei Basin.
pub const GROUND: usize = 17;

pub const ZONE: usize = 18;
// What the fields up to here are called.
pub const NAMES: [&str; 19] = [
    "S_S D", "S_1 D", "S_S M", "S_1 M", "N_A", "N_V", "N_A M", "N_V M", "class", "kind", "period",
    "R", "I", "alpha-y", "weights", "heights", "room", "ground", "zone",
];

pub const WEIGHTS: usize = 20;

pub const HEIGHTS: usize = 80;
// How many weights, and how many heights, the array has.
pub const LISTED: usize = 51;

pub const FIELDS: usize = 140;
