ghost use Rattle.std.specs.Prelude.{◌+◌, ◌≤◌};

// Digits, a point and more digits; ranged as a number without the point.
#[derive(Clone, Copy)]
pub struct Point {
    pub whole: usize,
    pub places: usize,
    pub low: u64,
    pub high: u64,
    ghost some: { 1 ≤ whole },
    ghost more: { 1 ≤ places },
    ghost few: { whole + places ≤ 18 },
}

// A number with a point: all its digits, and how many of them stand behind the point.
#[derive(Clone, Copy, PartialEq, Eq, Debug)]
pub struct Decimal {
    pub digits: u64,
    pub places: usize,
}
