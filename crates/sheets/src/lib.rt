// A file of sheets in, the text of the district out.
#![tactic(auto)]

use judged::judged_file;
use listing::{LONGEST, put_report};
use rows::put_rows;
use sheet::{Put, put_refused};
use text::writing::Writer;

pub mod answer;
pub mod judged;
pub mod listing;
pub mod rows;
pub mod split;

ghost use Rattle.std.specs.Prelude.{◌≤◌, length};
ghost use Rattle.sheets.specs.Listing.{longest, PutsFile};

// Writes what is printed for a file of sheets.
fn put_file(out: &mut [u8], file: &[u8]) -> Put
    requires { longest ≤ length out.old }
    ensures { PutsFile file.now out.old out.new result }
{
    if let Err(refusal) = judged_file(file) {
        return put_refused(out, refusal);
    }
    let mut w = Writer { out, at: 0 };
    let report = put_rows(&mut w, file);
    put_report(&mut w, report);
    Put {
        length: w.at,
        refusal: None,
    }
}

// Writes it into a lent array, which holds what is printed for every file.
pub fn put_district(out: &mut [u8; LONGEST], file: &[u8]) -> Put
    ensures { PutsFile file.now out.old out.new result }
{
    put_file(out, file)
}
