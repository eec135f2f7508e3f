// The ductility capacity and the square of its root, of an R in 0.01.
// Each is an equation of its own in the rules: one function would take their numerals as arguments, and hide which is which.
ghost use Rattle.std.specs.Prelude.{◌≡◌, ◌≤◌};
ghost use Rattle.site.specs.Capacity.{design_capacity, design_square, basin_capacity, basin_square, mce_capacity, mce_square};

use whole::Fraction;

// R_a = 1 + (R - 1) / 1.5.
pub fn design_capacity(r: u64) -> Fraction
    requires { r ≤ 600 }
    ensures { result ≡ design_capacity r }
{
    Fraction {
        num: 2 * r + 100,
        den: 300,
    }
}

// 2 R_a - 1.
pub fn design_square(r: u64) -> Fraction
    requires { 100 ≤ r }
    ensures { result ≡ design_square r }
{
    Fraction {
        num: r - 25,
        den: 75,
    }
}

// R_a = 1 + (R - 1) / 2.0 of the Taipei Basin.
pub fn basin_capacity(r: u64) -> Fraction
    requires { r ≤ 600 }
    ensures { result ≡ basin_capacity r }
{
    Fraction {
        num: r + 100,
        den: 200,
    }
}

// 2 R_a - 1 there: R.
pub fn basin_square(r: u64) -> Fraction
    ensures { result ≡ basin_square r }
{
    Fraction { num: r, den: 100 }
}

// R itself.
pub fn mce_capacity(r: u64) -> Fraction
    ensures { result ≡ mce_capacity r }
{
    Fraction { num: r, den: 100 }
}

// 2 R - 1.
pub fn mce_square(r: u64) -> Fraction
    requires { 100 ≤ r }
    ensures { result ≡ mce_square r }
{
    Fraction {
        num: r - 50,
        den: 50,
    }
}
