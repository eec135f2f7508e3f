// The program `shear`: a sheet on standard input, its listing on standard output.
#![tactic(auto)]

use limits::sheet::Sheet;
use sheet::listing::Listing;
use sheet::sheet_listing;
use std::io;

// One byte more than a sheet may have says that it is too long, and the rest is left unread.
const ROOM: usize = Sheet::BYTES_MOST as usize + 1;

// So in each program that prints a listing, which holds its bytes in an array and its length.
fn print(rt: &impl Print, sheet: &[u8]) -> io::Result<()> {
    let Listing { bytes, length } = sheet_listing(sheet);
    rt.write_all(&bytes[..length])
}

// A read that fails ends no sheet, and neither does input that has not arrived.
fn main(rt: HostRuntime) {
    let mut input = [0; ROOM];
    let Ok(n) = streams::fill(&mut rt.stdin(), &mut input) else {
        let _ = eprintln!(rt; "shear: standard input could not be read to its end");
        return;
    };
    if print(&rt, &input[..n]).is_err() {
        let _ = eprintln!(rt; "shear: the listing could not be written");
    }
}
