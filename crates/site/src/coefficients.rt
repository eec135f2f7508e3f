// Site coefficients, and A and B: functions of the class and of S in the same call, and of nothing else.
// Those of S_S and of S_1 differ in one word: a function over both would need a trait and two types, longer than the four are.
ghost use Rattle.std.specs.Prelude.{◌≡◌, ◌≤◌};
ghost use Rattle.site.specs.Coefficients.{fa, fv, acceleration_a, acceleration_b};

use crate::table2::Table2;
use limits::class::Class;
use whole::columns::between;

// F_a in ten-thousandths.
pub fn fa(class: Class, s: u64) -> u64
    ensures { result ≡ fa class s }
{
    between(Table2::of(class).a, s)
}

// F_v in ten-thousandths.
pub fn fv(class: Class, s: u64) -> u64
    ensures { result ≡ fv class s }
{
    between(Table2::of(class).v, s)
}

// A = F_a S_S in 10⁻⁸ g.
pub fn acceleration_a(class: Class, s: u64) -> u64
    requires { (5000 ≤ s) × (s ≤ 15_000) }
    ensures { result ≡ acceleration_a class s }
{
    fa(class, s) * s
}

// B = F_v S_1 in 10⁻⁸ g.
pub fn acceleration_b(class: Class, s: u64) -> u64
    requires { (3000 ≤ s) × (s ≤ 11_000) }
    ensures { result ≡ acceleration_b class s }
{
    fv(class, s) * s
}
