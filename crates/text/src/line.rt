// A line of a sheet: its word, so many numbers separated by tabs, and LF.
ghost use Rattle.std.specs.Prelude.{◌≡◌, length, replicate, IfNone};
ghost use Rattle.text.specs.Line.{field, fields, line};
ghost use Rattle.text.specs.Reading.{reads, beside, and_rest};

use crate::number::number;
use crate::reading::word;

// One tab, and a number.
pub fn field(s: &[u8]) -> Option<(u64, &[u8])>
    ensures { and_rest result ≡ reads field s.now }
{
    number(word(s, b"\t")?)
}

// As many of them as there are cells, each into its cell as soon as it is read.
fn read_fields<'a>(s: &'a [u8], cells: &mut [u64]) -> Option<&'a [u8]>
    ensures { beside cells.new result ≡ reads (fields (length cells.old)) s.now }
{
    let mut left = s;
    for cell in cells.iter_mut() {
        let (n, after) = field(left)?;
        *cell = n;
        left = after;
    }
    Some(left)
}

// Zeros in every cell.
fn clear(cells: &mut [u64])
    ensures { cells.new ≡ replicate (length cells.old) 0 }
{
    cells.fill(0);
}

// As many of them as there are cells, where the count is known only as it runs: the bytes after them. Where they are otherwise, the cells hold zeros.
pub fn fill_fields<'a>(s: &'a [u8], cells: &mut [u64]) -> Option<&'a [u8]>
    ensures read { beside cells.new result ≡ reads (fields (length cells.old)) s.now }
    ensures none { IfNone result (cells.new ≡ replicate (length cells.old) 0) }
{
    match read_fields(s, cells) {
        Some(after) => Some(after),
        None => {
            clear(cells);
            None
        }
    }
}

// N of them.
pub fn fields<const N: usize>(s: &[u8]) -> Option<([u64; N], &[u8])>
    ensures { and_rest result ≡ reads (fields N) s.now }
{
    let mut numbers = [0; N];
    let after = read_fields(s, &mut numbers)?;
    Some((numbers, after))
}

// A word, as many numbers as there are cells, and LF, the numbers into their cells as they are read.
fn read_line<'a>(s: &'a [u8], w: &[u8], cells: &mut [u64]) -> Option<&'a [u8]>
    ensures { beside cells.new result ≡ reads (line w.now (length cells.old)) s.now }
{
    let begin = word(s, w)?;
    let end = read_fields(begin, cells)?;
    word(end, b"\n")
}

// A word, as many numbers as there are cells, and LF, where the count is known only as it runs: the bytes after them. Where they are otherwise, the cells
// hold zeros.
pub fn fill_line<'a>(s: &'a [u8], w: &[u8], cells: &mut [u64]) -> Option<&'a [u8]>
    ensures read { beside cells.new result ≡ reads (line w.now (length cells.old)) s.now }
    ensures none { IfNone result (cells.new ≡ replicate (length cells.old) 0) }
{
    match read_line(s, w, cells) {
        Some(after) => Some(after),
        None => {
            clear(cells);
            None
        }
    }
}

// A word, N numbers, and LF.
pub fn line<'a, const N: usize>(s: &'a [u8], w: &[u8]) -> Option<([u64; N], &'a [u8])>
    ensures { and_rest result ≡ reads (line w.now N) s.now }
{
    let mut numbers = [0; N];
    let after = read_line(s, w, &mut numbers)?;
    Some((numbers, after))
}
