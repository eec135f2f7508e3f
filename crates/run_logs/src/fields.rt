// The numbers of a log in one array, as a change names a field by its place there: where each stands.

pub const THICKNESS_COUNT: usize = 0;

pub const KIND_COUNT: usize = 1;

pub const VALUE_COUNT: usize = 2;

pub const THICKNESSES: usize = 10;

pub const KINDS: usize = 60;

pub const VALUES: usize = 110;
// How many thicknesses, kinds and values the array has.
pub const LISTED: usize = 41;

pub const FIELDS: usize = 160;
