// The two sides on which a factor is printed: below the exact one, and above it.
ghost use Rattle.std.specs.Prelude.{◌≡◌, ℕ, ◌^◌, ◌<◌, ℤ};
ghost use Rattle.whole.specs.declared.Fraction.{Fraction};
ghost use Rattle.whole.specs.Rounding.{up, down};
ghost use Rattle.whole.specs.Root.{Radicand, lower_root, upper_root};
ghost use Rattle.whole.specs.Signed.{floor, ceiling};
ghost use Rattle.response.specs.Factor.{lower_factor, upper_factor};
ghost use Rattle.response.specs.Side.{Rounds, Prints, Between, lower_rounds, lower_prints, lower_between, upper_rounds, upper_prints, upper_between};

use whole::Fraction;
use whole::quotients::{down, up};
use whole::roots::{lower_root, upper_root};
use whole::signs::{ceil_div, floor_div};

pub trait Side {
    // A quotient rounded to the side, rounded to the other, and one with a sign rounded to the side.
    ghost quotient: { ℕ → ℕ → ℕ };

    ghost other: { ℕ → ℕ → ℕ };

    ghost signed_quotient: { ℤ → ℕ → ℤ };

    // The root of a square, and the printed factor.
    ghost root: { ℕ → Fraction → ℕ };

    ghost factor: { ℕ → ℕ → ℕ → ℕ → Fraction → Fraction → ℕ };

    fn quotient(n: u64, d: u64) -> u64
        requires { 0 < d }
        ensures { result ≡ quotient n d };

    fn signed_quotient(n: i64, d: u64) -> i64
        requires { (0 < d) × (d < 2 ^ 63) }
        ensures { result ≡ signed_quotient n d };

    fn root(s: u64, square: Fraction) -> u64
        requires { Radicand s square }
        ensures { result ≡ root s square };

    ghost rounds: { Rounds quotient other signed_quotient };

    ghost prints: { Prints signed_quotient root factor };

    ghost between: { Between root };
}

pub struct Lower;

impl Side for Lower {
    ghost quotient = { down };

    ghost other = { up };

    ghost signed_quotient = { floor };

    ghost root = { lower_root };

    ghost factor = { lower_factor };

    ghost rounds = { lower_rounds };

    ghost prints = { lower_prints };

    ghost between = { lower_between };

    fn quotient(n: u64, d: u64) -> u64 {
        down(n, d)
    }

    fn signed_quotient(n: i64, d: u64) -> i64 {
        floor_div(n, d)
    }

    fn root(s: u64, square: Fraction) -> u64 {
        lower_root(s, square)
    }
}

pub struct Upper;

impl Side for Upper {
    ghost quotient = { up };

    ghost other = { down };

    ghost signed_quotient = { ceiling };

    ghost root = { upper_root };

    ghost factor = { upper_factor };

    ghost rounds = { upper_rounds };

    ghost prints = { upper_prints };

    ghost between = { upper_between };

    fn quotient(n: u64, d: u64) -> u64 {
        up(n, d)
    }

    fn signed_quotient(n: i64, d: u64) -> i64 {
        ceil_div(n, d)
    }

    fn root(s: u64, square: Fraction) -> u64 {
        upper_root(s, square)
    }
}
