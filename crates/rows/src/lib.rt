// Rows of numbers in decimal, each ended by one byte that is no digit: the cases that the gate's programs read.
#![tactic(auto)]

ghost use Rattle.std.specs.Prelude.{◌≤◌, ◌≡◌, min};
ghost use Rattle.rows.specs.Numbers.{with_digit, number_at, Row};

// The bytes whose numbers are still to be read.
#[derive(Clone, Copy)]
pub struct Numbers<'a> {
    pub rest: &'a [u8],
}

// A number with a digit behind it; a digit that would take it beyond 64 bits ends it, as any other byte does.
#[tactic(auto, unfolding(crate::specs::Numbers::with_digit, crate::specs::Numbers::goes_on))]
fn with_digit(value: u64, byte: u8) -> Option<u64>
    ensures { result ≡ with_digit value byte }
{
    if !byte.is_ascii_digit() {
        return None;
    }
    value.checked_mul(10)?.checked_add(u64::from(byte - b'0'))
}

impl<'a> Numbers<'a> {
    // The number that comes first, 0 where no digit stands there.
    pub fn number(&mut self) -> u64
        ensures { record { value = result; rest = self.new.rest.now } ≡ number_at self.old.rest.now }
    {
        let mut value = 0;
        while let Some((byte, rest)) = self.rest.split_first() {
            self.rest = rest;
            let Some(more) = with_digit(value, *byte) else {
                break;
            };
            value = more;
        }
        value
    }

    // The number that comes first, or `most` where it is above.
    pub fn at_most(&mut self, most: usize) -> usize
        ensures value { result ≡ min (number_at self.old.rest.now).value most }
        ensures rest { self.new.rest.now ≡ (number_at self.old.rest.now).rest }
    {
        (self.number() as usize).min(most)
    }

    // A row of so many numbers, in the first of its cells; the others hold 0.
    pub fn row_of<const N: usize>(&mut self, count: usize) -> [u64; N]
        requires { count ≤ N }
        ensures { Row self.old.rest.now count N result self.new.rest.now }
    {
        let mut values = [0; N];
        for value in &mut values[..count] {
            *value = self.number();
        }
        values
    }

    // A number for each cell of a row.
    pub fn row<const N: usize>(&mut self) -> [u64; N]
        ensures { Row self.old.rest.now N N result self.new.rest.now }
    {
        self.row_of(N)
    }
}
