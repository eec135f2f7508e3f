// The lower root of a fraction as it is found on paper: digit by digit from the first place on, what is left kept beside the digits.
//
// Of n / d in s-ths, with the digits k found so far and zeros behind them, what is left is s² n - d k². The next digit is the largest c that
// takes no more than is left: at the place p it takes d (k + c p)² - d k². Where s is a power of ten, what is left ends, from the place s
// on, in two zeros for each digit still to come. On paper they are not written: two of them are brought down for each digit.
ghost use Rattle.std.specs.Prelude.{◌≡◌, ◌*◌, ◌≤◌, ◌<◌};
ghost use Rattle.whole.specs.Root.{Radicand};
ghost use Rattle.whole.specs.Digits.{Left, Found, taken, Digit, Place};

use crate::Fraction;

// The place of the first digit: no root reaches 4 * 10^7.
pub const FIRST: u64 = 10_000_000;

const DIGIT_MOST: u64 = 9;

// The digits found, with zeros behind them, and what is left beside them.
#[derive(Clone, Copy, PartialEq, Eq, Debug)]
pub struct Digits {
    pub found: u64,
    pub left: u64,
}

// What x takes off beside the digits k.
fn taken(d: u64, k: u64, x: u64) -> u64
    requires { (d ≤ 1000) × (k ≤ 40_000_000) × (x ≤ 90_000_000) }
    ensures { result ≡ taken d k x }
{
    d * ((2 * k + x) * x)
}

// The digit at the place p: a trial by one division, since c takes at least c times what 1 takes there, and corrected downward while it takes
// more than is left. The loop counts no index: c is the digit itself, and a range from the trial down to 1 would need a line for 0.
fn digit(d: u64, k: u64, p: u64, left: u64) -> u64
    requires { (0 < d) × (d ≤ 1000) × (k ≤ 40_000_000) × (0 < p) × (p ≤ 10_000_000) × (left < taken d k (10 * p)) }
    ensures { Digit d k p left result }
{
    let mut c = (left / taken(d, k, p)).min(DIGIT_MOST);
    while left < taken(d, k, c * p) {
        c -= 1;
    }
    c
}

// The digits of the lower root of a square in s-ths, down to a last place: p goes down by tenths. The digits and what is left stay two numbers
// in the loop: as `Digits` they would be taken apart and put together anew at each place.
pub fn digits_down_to(s: u64, square: Fraction, last: u64) -> Digits
    requires { Radicand s square × Place last × (last ≤ 10_000_000) }
    ensures { Found s square last result.found × Left s square result.found result.left }
{
    let mut k = 0;
    let mut left = s * s * square.num;
    let mut p = 10 * FIRST;
    while last < p {
        p /= 10;
        let x = digit(square.den, k, p, left) * p;
        left -= taken(square.den, k, x);
        k += x;
    }
    Digits { found: k, left }
}
