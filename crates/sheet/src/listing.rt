// What is printed, as bytes: the listing of the results of a job, or the one line of a refusal.
ghost use Rattle.std.specs.Prelude.{◌≡◌, ◌≤◌, length};
ghost use Rattle.text.specs.Writing.{Room, Writes};
ghost use Rattle.sheet.specs.Listing.{all_levels, results_listing, refusal, longest, Written, Levelled};

use base_shear::Figures;
use limits::refusal::Refusal;
use text::writing::Writer;

// With 20 digits a number a base line has 110 bytes and a level line 90: there is room for any figures of 50 levels.
pub const LONGEST: usize = 4_610;

// The bytes of a listing, and how many there are: in fixed memory.
#[derive(Clone, Copy)]
pub struct Listing {
    pub bytes: [u8; LONGEST],
    pub length: usize,
}

// Writes a line for each level, roof first. Forces, shears and overturning moments stand apart, as a job lends them to C.
pub fn put_levels(w: &mut Writer, forces: &[u64], shears: &[u64], overturnings: &[u64])
    requires levelled { Levelled forces.now shears.now overturnings.now }
    requires levels_fit { Room w.old (all_levels forces.now shears.now overturnings.now) }
    ensures same_buffer { w.new.out.ghost_name ≡ w.old.out.ghost_name }
    ensures bytes { Writes w.old (all_levels forces.now shears.now overturnings.now) w.new }
{
    // By its place: three lists and a number zipped and reversed would have to be taken apart again.
    for x in (0..forces.len()).rev() {
        let numbers = [x as u64 + 1, forces[x], shears[x], overturnings[x]];
        w.line(b"level", &numbers);
    }
}

// Writes the listing of a job that was taken, and returns its length.
pub fn put_results(
    out: &mut [u8],
    f: Figures,
    forces: &[u64],
    shears: &[u64],
    overturnings: &[u64],
) -> usize
    requires { Levelled forces.now shears.now overturnings.now × (longest ≤ length out.old) }
    ensures { Written (results_listing f forces.now shears.now overturnings.now) out.old out.new result }
{
    let mut w = Writer { out, at: 0 };
    w.line(b"base", &[f.v, f.vm, f.star, f.vd, f.t]);
    put_levels(&mut w, forces, shears, overturnings);
    w.at
}

// Writes the one line of a job or a sheet that was refused, and returns its length.
pub fn put_refusal(out: &mut [u8], r: Refusal) -> usize
    requires { longest ≤ length out.old }
    ensures { Written (refusal r.number r.place) out.old out.new result }
{
    let mut w = Writer { out, at: 0 };
    w.line(b"refused", &[r.number, r.place]);
    w.at
}
