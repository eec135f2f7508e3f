// (23) without its factor: overturning about the bottom of each storey, in N·dm.
ghost use Rattle.std.specs.Prelude.{◌≡◌, ◌∷◌, ◌≤◌, ◌<◌, length, drop, get_or};
ghost use Rattle.whole.specs.Cells.{laid};
ghost use Rattle.storeys.specs.Reach.{Turning};
ghost use Rattle.storeys.specs.Storeys.{borne, bottom, overturnings};

// What levels bear: their forces added, in N, and force times height above a bottom, added, in N·dm.
#[derive(Clone, Copy, Default)]
pub struct Borne {
    pub force: u64,
    pub moment: u64,
}

impl Borne {
    // What the levels handed on bear about b, out of what those above the lowest bear about it: the lowest adds its force, and all of them
    // are its height above b further up.
    #[tactic(auto, using(crate::proofs::Bearing::borne_lowest, crate::proofs::Bearing::borne_most, crate::proofs::Bearing::sum_lowest))]
    pub fn with_lowest(self, b: u64, forces: &[u64], heights: &[u64]) -> Borne
        requires turning { Turning forces.now heights.now × (0 < length forces.now) × (b ≤ get_or heights.now 0 0) }
        requires above_value { self ≡ borne (get_or heights.now 0 0) (drop 1 forces.now) (drop 1 heights.now) }
        ensures { result ≡ borne b forces.now heights.now }
    {
        let force = forces[0] + self.force;
        let moment = self.moment + force * (heights[0] - b);
        Borne { force, moment }
    }
}

// What stands under level x: that of level x - 1, or of the base.
pub fn under<T: Copy>(base: T, levels: &[T], x: usize) -> T
    requires { x ≤ length levels.now }
    ensures { result ≡ get_or (base ∷ levels.now) x base }
{
    levels[..x].last().copied().unwrap_or(base)
}

// The bottom of storey x: level x - 1, or the base.
pub fn bottom(heights: &[u64], x: usize) -> u64
    requires { x ≤ length heights.now }
    ensures { result ≡ bottom heights.now x }
{
    under(0, heights, x)
}

// Overturning about the bottom of every storey, into the first cells of out, in one pass from the roof down: the levels from x on, handed
// on as parts, are level x and those of the storey above.
pub fn fill_overturnings(forces: &[u64], heights: &[u64], out: &mut [u64])
    requires { Turning forces.now heights.now × (length forces.now ≤ length out.old) }
    ensures { out.new ≡ laid (overturnings forces.now heights.now) out.old }
{
    let mut all = Borne::default();
    // By its place: of the cells that `iter_mut` lends under `rev` a proof does not know what was written.
    for x in (0..forces.len()).rev() {
        let b = bottom(heights, x);
        all = all.with_lowest(b, &forces[x..], &heights[x..]);
        out[x] = all.moment;
    }
}
