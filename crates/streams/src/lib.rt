// What a reader gives, for the programs: where its bytes are known, those that came stand in the cells in their order, and no other is gone. And how the
// programs `run_*` print.
#![tactic(auto)]

ghost use Rattle.std.specs.Prelude.{◌<◌, length, take, MatchResult, IfOk};
ghost use Rattle.std.specs.Counts.{IsPrefixLen};
ghost use Rattle.std.specs.Io.KnownBytes.{Consumes, IsAtEnd};

use std::io::Read;

pub mod goes_on;

// Enough for the cases of each program that is run: the programs have no heap, so what they read and list stands in fixed memory.
pub const ROOM: usize = 65_536;

// A read failed, and so many bytes had come before.
#[derive(Clone, Copy, Debug)]
pub struct CutShort {
    pub came: usize,
}

// Reads until the cells are full or the input ends, and gives how many bytes came: they stand at the cells' start. The first read that brings
// nothing is the end: a terminal has to say so only once.
pub fn fill<R: Read>(input: &mut R, cells: &mut [u8]) -> Result<usize, CutShort>
    ensures within { MatchResult result (λ n. IsPrefixLen n cells.new) (λ e. IsPrefixLen e.came cells.new) }
    ensures bytes { MatchResult result (λ n. Consumes (R.remaining input.old) (R.remaining input.new) (take n cells.new)) (λ e. Consumes (R.remaining input.old) (R.remaining input.new) (take e.came cells.new)) }
    ensures end { IfOk result (λ n. n < length cells.new → IsAtEnd (R.remaining input.new)) }
{
    let mut n = 0;
    // By hand: of std's methods `read_to_end` needs a heap, and no clause says what `read_exact` leaves where the input ends before.
    while n < cells.len() {
        let Ok(more) = input.read(&mut cells[n..]) else {
            return Err(CutShort { came: n });
        };
        if more == 0 {
            return Ok(n);
        }
        n += more;
    }
    Ok(n)
}

// Reads until the cells are full, the input ends or a read fails, and gives how many bytes came: they stand at the cells' start.
pub fn read_full<R: Read>(input: &mut R, cells: &mut [u8]) -> usize
    ensures within { IsPrefixLen result cells.new }
    ensures bytes { Consumes (R.remaining input.old) (R.remaining input.new) (take result cells.new) }
{
    fill(input, cells).unwrap_or_else(|short| short.came)
}
