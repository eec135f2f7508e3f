// The program `district`: a file of sheets on standard input, rows and report of the district on standard output.
#![tactic(auto)]

use sheets::judged::BYTES_MOST;
use sheets::listing::LONGEST;
use sheets::put_district;
use std::io;

// One byte more than a file may have says that it is too long, and the rest is left unread.
const ROOM: usize = BYTES_MOST + 1;

fn print(rt: &impl Print, file: &[u8]) -> io::Result<()> {
    let mut bytes = [0; LONGEST];
    let put = put_district(&mut bytes, file);
    rt.write_all(&bytes[..put.length])
}

// A read that fails ends no file, and neither does input that has not arrived.
fn main(rt: HostRuntime) {
    let mut input = [0; ROOM];
    let Ok(n) = streams::fill(&mut rt.stdin(), &mut input) else {
        let _ = eprintln!(rt; "district: standard input could not be read to its end");
        return;
    };
    if print(&rt, &input[..n]).is_err() {
        let _ = eprintln!(rt; "district: the rows and the report could not be written");
    }
}
