// The rows of a file, each written as its sheet is answered.
ghost use Rattle.std.specs.Prelude.{◌≡◌, ◌≤◌, length};
ghost use Rattle.text.specs.Writing.{Room, Writes};
ghost use Rattle.district_call.specs.Report.{report_of};
ghost use Rattle.sheets.specs.Answers.{answers_in};
ghost use Rattle.sheets.specs.Listing.{row_lines};
ghost use Rattle.sheets.specs.Split.{sheets_in};

use crate::answer::sheet_answer;
use crate::listing::put_row;
use crate::split::Sheets;
use district_call::report::{CELLS, Report, Totals, count_in};
use text::writing::Writer;

// Writes a row for each sheet, and returns the report. It counts as `fill_rows` of a district does, of another list and with a row written.
pub fn put_rows(w: &mut Writer, file: &[u8]) -> Report
    requires { (length (sheets_in file.now) ≤ 256) × Room w.old (row_lines (answers_in file.now)) }
    ensures report_value { result ≡ report_of (answers_in file.now) }
    ensures same_buffer { w.new.out.ghost_name ≡ w.old.out.ghost_name }
    ensures bytes { Writes w.old (row_lines (answers_in file.now)) w.new }
{
    let mut totals = Totals::default();
    let mut cells = [0; CELLS];
    // Counted with the totals: the number of a row, its totals and its cell grow together.
    let mut number = 0;
    for s in Sheets(file) {
        let a = sheet_answer(s);
        number += 1;
        put_row(w, number, a);
        totals = totals.with_answer(a);
        count_in(&mut cells, a);
    }
    Report { totals, cells }
}
