// The replies that a program in C gets, in what it lends.
ghost use Rattle.std.specs.Prelude.{◌≡◌, length};
ghost use Rattle.limits.specs.Outcome.{outcome};
ghost use Rattle.linked.specs.Linked.{said, FiguresReply, NumberReply, report_numbers};

use base_shear::Figures;
use district_call::report::{CELLS, Report};
use limits::refusal::Refusal;

// The number of a refusal and its place, zeros where nothing is refused.
pub fn said(refusal: Option<Refusal>) -> (u64, u64)
    ensures { result ≡ said refusal }
{
    match refusal {
        Some(r) => (r.number, r.place),
        None => (0, 0),
    }
}

// Place; V, V_M, V*, V_D in N and T in ms, zeros where data is refused.
pub fn put_figures(out: &mut [u64; 6], answer: Result<Figures, Refusal>) -> u64
    ensures { FiguresReply (outcome answer) result out.new }
{
    match answer {
        Ok(n) => {
            *out = [0, n.v, n.vm, n.star, n.vd, n.t];
            0
        }
        Err(r) => {
            *out = [r.place, 0, 0, 0, 0, 0];
            r.number
        }
    }
}

// Beside `put_figures`, as an array of one cell more than there are values is no type over a const parameter.
// Place; a number, 0 where data is refused: a class by its number, a torsion factor in thousandths.
pub fn put_number(out: &mut [u64; 2], answer: Result<u64, Refusal>) -> u64
    ensures { NumberReply (outcome answer) result out.new }
{
    match answer {
        Ok(n) => {
            *out = [0, n];
            0
        }
        Err(r) => {
            *out = [r.place, 0];
            r.number
        }
    }
}

// How many totals a report has, and how many numbers: these, then its cells.
const TOTALS: usize = 6;

pub const REPORT: usize = TOTALS + CELLS;

// Jobs accepted and refused; the sum of V_D in N; how often V, V_M and V* governed; the cells.
pub fn put_report(out: &mut [u64; REPORT], r: &Report)
    ensures { out.new ≡ report_numbers r.now }
{
    let t = r.totals;
    let (totals, cells) = out.split_at_mut(TOTALS);
    totals.copy_from_slice(&[t.accepted, t.refused, t.sum, t.v, t.vm, t.star]);
    cells.copy_from_slice(&r.cells);
}
