// The report of a district: its totals, and its jobs sorted into cells by V_D over W.
ghost use Rattle.std.specs.Prelude.{◌≡◌, [], ◌≤◌, ◌<◌};
ghost use Rattle.limits.specs.Outcome.{outcome};
ghost use Rattle.district_call.specs.Report.{cell_of, governs, with_figures, with_answer, counted_in, report_of};
ghost use Rattle.district_call.specs.Tally.{Small, Sorted, LowCells};

use crate::weighed::Weighed;
use base_shear::Figures;
use limits::refusal::Refusal;

// V_D over W in thousandths, N over kN, is at most 1,125: cells of ten, from 0 on, hold every accepted job.
pub const CELLS: usize = 113;

// How many thousandths a cell is of.
pub const CELL_THOUSANDTHS: u64 = 10;

// How many jobs were accepted and how many refused; the sum of V_D in N; how often V, V_M and V* governed.
#[derive(Clone, Copy, Default)]
pub struct Totals {
    pub accepted: u64,
    pub refused: u64,
    pub sum: u64,
    pub v: u64,
    pub vm: u64,
    pub star: u64,
}

#[derive(Clone, Copy)]
pub struct Report {
    pub totals: Totals,
    pub cells: [u64; CELLS],
}

// The report of no job. Written out: the derive does not say so of the cells.
impl Default for Report {
    ghost is_default = { λ r. r ≡ report_of [] };

    #[tactic(auto, unfolding(crate::specs::Report::report_of, crate::specs::Report::how_many, whole::specs::Cells::cells, whole::specs::Cells::sum))]
    fn default() -> Report {
        Report {
            totals: Totals::default(),
            cells: [0; CELLS],
        }
    }
}

// Which shear governs: V where it is V_D, else V_M where it is, else V*.
#[derive(Clone, Copy)]
enum Governs {
    V,
    Vm,
    Star,
}

impl Governs {
    #[tactic(auto, unfolding(crate::specs::Report::governs))]
    fn of(n: Figures) -> Governs
        ensures { result ≡ governs n }
    {
        if n.v == n.vd {
            Governs::V
        } else if n.vm == n.vd {
            Governs::Vm
        } else {
            Governs::Star
        }
    }
}

impl Totals {
    fn with_taken(self, n: Figures) -> Totals
        requires { Small self × (n.vd ≤ 1_125_000_000) }
        ensures { result ≡ with_figures self n }
    {
        let counted = Totals {
            accepted: self.accepted + 1,
            sum: self.sum + n.vd,
            ..self
        };
        match Governs::of(n) {
            Governs::V => Totals {
                v: self.v + 1,
                ..counted
            },
            Governs::Vm => Totals {
                vm: self.vm + 1,
                ..counted
            },
            Governs::Star => Totals {
                star: self.star + 1,
                ..counted
            },
        }
    }

    // The totals with one job more.
    #[tactic(auto, unfolding(crate::specs::Report::with_answer))]
    pub fn with_answer(self, a: Result<Weighed, Refusal>) -> Totals
        requires { Small self × Sorted (outcome a) }
        ensures { result ≡ with_answer self (outcome a) }
    {
        match a {
            Ok(w) => self.with_taken(w.figures),
            Err(_) => Totals {
                refused: self.refused + 1,
                ..self
            },
        }
    }
}

// The cell of an accepted job.
#[tactic(auto, unfolding(crate::specs::Report::cell_of, crate::specs::Report::thousandths, whole::specs::Rounding::down))]
pub fn cell_of(w: Weighed) -> usize
    requires { 0 < w.weight }
    ensures { result ≡ cell_of w }
{
    (w.figures.vd / w.weight / CELL_THOUSANDTHS) as usize
}

// Counts a job in its cell, where it was accepted.
#[tactic(auto, unfolding(crate::specs::Report::counted_in), using(crate::proofs::CellOf::cell_low))]
pub fn count_in(cells: &mut [u64; CELLS], a: Result<Weighed, Refusal>)
    requires { Sorted (outcome a) × LowCells cells.old }
    ensures { cells.new ≡ counted_in (outcome a) cells.old }
{
    if let Ok(w) = a {
        cells[cell_of(w)] += 1;
    }
}
