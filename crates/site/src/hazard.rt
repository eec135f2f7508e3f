// What the shears are worked out from: three hazards and constants, whatever made them.
use crate::lines::Lines;
use whole::Fraction;

// One hazard: A and B in 10⁻⁸ g, the ductility capacity, and the square of its root.
#[derive(Clone, Copy)]
pub struct Hazard {
    pub a: u64,
    pub b: u64,
    pub capacity: Fraction,
    pub square: Fraction,
}

// The hazards of V, V_M and V*, the lines, and the divisors in tenths: 1.4 of V and V_M, 4.2 of V*, 3.5 in the Taipei Basin.
#[derive(Clone, Copy)]
pub struct Hazards {
    pub design: Hazard,
    pub mce: Hazard,
    pub star: Hazard,
    pub lines: Lines,
    pub divisor: u64,
    pub stardivisor: u64,
}
