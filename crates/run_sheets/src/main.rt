// Runs the reader and the listing on each sheet of data/ that the file `names` names, one name a line, and writes each listing under
// the sheet's name.
#![tactic(auto)]

ghost use Rattle.std.specs.Prelude.{IfSome};
ghost use Rattle.std.specs.Counts.{IsPrefixLen};

use limits::sheet::Sheet;
use sheet::listing::Listing;
use sheet::sheet_listing;
use std::fs::File;
use std::io;
use streams::goes_on::GoesOn;

const LF: u8 = b'\n';

// One byte more than a sheet may have: the file of a sheet that is too long need not be read further.
const ROOM: usize = Sheet::BYTES_MOST as usize + 1;

// How many bytes of the sheet of a name came, where there is such a sheet. A name that is no text names none.
fn read(rt: &HostRuntime, name: &[u8], cells: &mut [u8]) -> Option<usize>
    ensures { IfSome result (λ n. IsPrefixLen n cells.new) }
{
    let path = str::from_utf8(name).ok()?;
    let mut file = File::open(rt, path).ok()?;
    Some(streams::read_full(&mut file, cells))
}

// So in each program that prints a listing, which holds its bytes in an array and its length.
fn print(rt: &impl Print, sheet: &[u8]) -> io::Result<()> {
    let Listing { bytes, length } = sheet_listing(sheet);
    rt.write_all(&bytes[..length])
}

// A sheet that is not there is said to be so, and the output then differs.
fn one(rt: &HostRuntime, name: &[u8]) -> io::Result<()> {
    let out = GoesOn(rt);
    out.write_all(name)?;
    out.write_all(b"\n")?;
    let mut input = [0; ROOM];
    match read(rt, name, &mut input) {
        Some(n) => print(&out, &input[..n]),
        None => out.write_all(b"not there\n"),
    }
}

fn run(rt: &HostRuntime, names: &[u8]) -> io::Result<()> {
    for line in names.split_inclusive(|b| *b == LF) {
        one(rt, line.strip_suffix(&[LF]).unwrap_or(line))?;
    }
    Ok(())
}

// A write that fails stops none that follows, and what was printed is then not what is wanted.
fn main(rt: HostRuntime) {
    let Ok(mut file) = File::open(&rt, "names") else {
        return;
    };
    let mut input = [0; streams::ROOM];
    let n = streams::read_full(&mut file, &mut input);
    let _ = run(&rt, &input[..n]);
}
