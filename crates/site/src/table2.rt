// Table 2 of document 000: each column of S, in 0.0001 g, beside its coefficient in ten-thousandths, a table a class.
ghost use Rattle.std.specs.Prelude.{◌≡◌};
ghost use Rattle.site.specs.Table2.{columns_a, columns_v};

use limits::class::Class;
use whole::Column;

// F_a by S_S, and F_v by S_1.
#[derive(Clone, Copy)]
pub struct Table2 {
    pub a: [Column; 5],
    pub v: [Column; 5],
}

pub const HARD: Table2 = Table2 {
    a: [
        Column(5000, 10_000),
        Column(6000, 10_000),
        Column(7000, 10_000),
        Column(8000, 10_000),
        Column(9000, 10_000),
    ],
    v: [
        Column(3000, 10_000),
        Column(3500, 10_000),
        Column(4000, 10_000),
        Column(4500, 10_000),
        Column(5000, 10_000),
    ],
};

pub const NORMAL: Table2 = Table2 {
    a: [
        Column(5000, 11_000),
        Column(6000, 11_000),
        Column(7000, 10_000),
        Column(8000, 10_000),
        Column(9000, 10_000),
    ],
    v: [
        Column(3000, 15_000),
        Column(3500, 14_000),
        Column(4000, 13_000),
        Column(4500, 12_000),
        Column(5000, 11_000),
    ],
};

pub const SOFT: Table2 = Table2 {
    a: [
        Column(5000, 12_000),
        Column(6000, 12_000),
        Column(7000, 11_000),
        Column(8000, 10_000),
        Column(9000, 10_000),
    ],
    v: [
        Column(3000, 18_000),
        Column(3500, 17_000),
        Column(4000, 16_000),
        Column(4500, 15_000),
        Column(5000, 14_000),
    ],
};

impl Table2 {
    pub fn of(class: Class) -> Table2
        ensures { (result.a ≡ columns_a class) × (result.v ≡ columns_v class) }
    {
        match class {
            Class::Hard => HARD,
            Class::Normal => NORMAL,
            Class::Soft => SOFT,
        }
    }
}
