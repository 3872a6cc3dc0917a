ghost use Rattle.std.specs.Prelude.{◌+◌, ◌≤◌};

use kinds::point::Decimal;

// A number with a point and a sign; zero has a plus.
#[derive(Clone, Copy, PartialEq, Eq, Debug)]
pub enum SignedDecimal {
    Plus(Decimal),
    Minus(Decimal),
}

// A sign, digits, a point and more digits, at most `high` either way when read without the point.
#[derive(Clone, Copy)]
pub struct SignedPoint {
    pub whole: usize,
    pub places: usize,
    pub high: u64,
    ghost some: { 1 ≤ whole },
    ghost more: { 1 ≤ places },
    ghost few: { whole + places ≤ 18 },
}
