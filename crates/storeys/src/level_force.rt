// The force of a level.
ghost use Rattle.std.specs.Prelude.{◌≡◌, ◌≤◌, ◌<◌, length};
ghost use Rattle.whole.specs.Cells.{laid};
ghost use Rattle.storeys.specs.Reach.{Falling};
ghost use Rattle.storeys.specs.Storeys.{force, forces};

// A level's shear less the one above; above the roof there is none.
pub fn level_force(shears: &[u64], x: usize) -> u64
    requires { Falling shears.now × (x < length shears.now) }
    ensures { result ≡ force shears.now x }
{
    match shears.get(x + 1) {
        Some(above) => shears[x] - above,
        None => shears[x],
    }
}

// The force of every level, into the first cells of out. The verdicts of drift are filled so too: a loop over any step would ask what the step promises.
#[tactic(auto, using(crate::proofs::Laying::laid_by_place))]
pub fn fill_forces(shears: &[u64], out: &mut [u64])
    requires { Falling shears.now × (length shears.now ≤ length out.old) }
    ensures { out.new ≡ laid (forces shears.now) out.old }
{
    for (x, cell) in out[..shears.len()].iter_mut().enumerate() {
        *cell = level_force(shears, x);
    }
}
