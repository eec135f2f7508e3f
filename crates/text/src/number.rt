// A number of 1 to 9 digits with no leading zero.
ghost use Rattle.std.specs.Prelude.{◌≡◌, take};
ghost use Rattle.text.specs.Number.{digits, counted, leading_zero, number};
ghost use Rattle.text.specs.Reading.{reads, and_rest};

use limits::sheet::Sheet;

// How many digits there are, and the number that they write.
#[derive(Clone, Copy)]
pub struct Digits {
    pub count: usize,
    pub value: u64,
}

// The digits at the front: no more than one past what a number has, so that no value wraps.
fn count_digits(s: &[u8]) -> Digits
    ensures { result ≡ counted (take 10 (digits s.now)) }
{
    // One pass: count and value grow together, and two chains would read the digits twice.
    let mut count = 0;
    let mut value = 0;
    for b in s {
        if Sheet::DIGITS_MOST < count as u64 || !b.is_ascii_digit() {
            return Digits { count, value };
        }
        value = 10 * value + u64::from(*b - b'0');
        count += 1;
    }
    Digits { count, value }
}

fn leading_zero(count: usize, first: u8) -> bool
    ensures { result ≡ leading_zero count first }
{
    1 < count && first == b'0'
}

// The number at the front, and the bytes after it.
pub fn number(s: &[u8]) -> Option<(u64, &[u8])>
    ensures { and_rest result ≡ reads number s.now }
{
    let Digits { count, value } = count_digits(s);
    if (count as u64) < Sheet::DIGITS_FEWEST {
        return None;
    }
    if Sheet::DIGITS_MOST < count as u64 {
        return None;
    }
    if leading_zero(count, s[0]) {
        return None;
    }
    Some((value, &s[count..]))
}
