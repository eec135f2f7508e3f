// The lines of a district: its rows, its totals and its cells, as bytes.
ghost use Rattle.std.specs.Prelude.{◌≡◌, ◌≤◌, length};
ghost use Rattle.limits.specs.Outcome.{outcome};
ghost use Rattle.text.specs.Writing.{Room, Writes};
ghost use Rattle.district_call.specs.Report.{cells_most};
ghost use Rattle.sheets.specs.Listing.{row_line, totals_line, cell_lines, report_lines};

use district_call::report::{CELL_THOUSANDTHS, Report, Totals};
use district_call::row::row_of;
use district_call::weighed::Weighed;
use limits::refusal::Refusal;
use text::writing::Writer;

// With 20 digits a number a row has 172 bytes, the totals 133 and a cell 68: there is room for 256 rows and 113 cells.
pub const LONGEST: usize = 51_849;

// Writes the row of a sheet.
pub fn put_row(w: &mut Writer, number: u64, a: Result<Weighed, Refusal>)
    requires { Room w.old (row_line number (outcome a)) }
    ensures same_buffer { w.new.out.ghost_name ≡ w.old.out.ghost_name }
    ensures bytes { Writes w.old (row_line number (outcome a)) w.new }
{
    let [refused, place, v, vm, star, vd, t] = row_of(a);
    w.line(b"row", &[number, refused, place, v, vm, star, vd, t]);
}

fn put_totals(w: &mut Writer, t: Totals)
    requires { Room w.old (totals_line t) }
    ensures same_buffer { w.new.out.ghost_name ≡ w.old.out.ghost_name }
    ensures bytes { Writes w.old (totals_line t) w.new }
{
    w.line(
        b"report",
        &[t.accepted, t.refused, t.sum, t.v, t.vm, t.star],
    );
}

// Writes a line for each cell.
fn put_cells(w: &mut Writer, cells: &[u64])
    requires { (length cells.now ≤ cells_most) × Room w.old (cell_lines cells.now) }
    ensures same_buffer { w.new.out.ghost_name ≡ w.old.out.ghost_name }
    ensures bytes { Writes w.old (cell_lines cells.now) w.new }
{
    for (k, jobs) in cells.iter().enumerate() {
        let lowest = CELL_THOUSANDTHS * k as u64;
        w.line(b"cell", &[lowest, lowest + (CELL_THOUSANDTHS - 1), *jobs]);
    }
}

pub fn put_report(w: &mut Writer, r: Report)
    requires { (length r.cells ≡ cells_most) × Room w.old (report_lines r) }
    ensures same_buffer { w.new.out.ghost_name ≡ w.old.out.ghost_name }
    ensures bytes { Writes w.old (report_lines r) w.new }
{
    put_totals(w, r.totals);
    put_cells(w, &r.cells);
}
