// A file of sheets, and its sheets one after the other.
ghost use Rattle.std.specs.Prelude.{true, ◌≡◌, length};
ghost use Rattle.std.specs.Iterator.{item_count, YieldsFirstRef};
ghost use Rattle.sheets.specs.Split.{sheets_in, first_in};

// How many bytes the first sheet has: up to an empty line, or all.
pub fn first_length(s: &[u8]) -> usize
    ensures { result ≡ length (first_in true s.now) }
{
    let mut fresh = true;
    for (i, b) in s.iter().enumerate() {
        let lf = *b == b'\n';
        if fresh && lf {
            return i;
        }
        fresh = lf;
    }
    s.len()
}

// The sheets of what is left of a file.
#[derive(Drop)]
pub struct Sheets<'a>(pub &'a [u8]);

impl<'a> Iterator for Sheets<'a> {
    type Item = &'a [u8];

    ghost next_gives = { YieldsFirstRef (λ s. sheets_in s.0.now) };

    ghost remaining = { item_count (λ s. sheets_in s.0.now) };

    fn next(&mut self) -> Option<&'a [u8]> {
        if self.0.is_empty() {
            return None;
        }
        let left = self.0;
        let n = first_length(left);
        // the empty line that ends a sheet is no part of it
        self.0 = &left[left.len().min(n + 1)..];
        Some(&left[..n])
    }
}

// How many sheets a file has.
pub fn count_sheets(file: &[u8]) -> usize
    ensures { result ≡ length (sheets_in file.now) }
{
    Sheets(file).count()
}
