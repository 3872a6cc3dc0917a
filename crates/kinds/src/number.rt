ghost use Rattle.std.specs.Prelude.{◌≤◌};

// Digits of the full width, from `low` to `high`.
#[derive(Clone, Copy)]
pub struct Number {
    pub width: usize,
    pub low: u64,
    pub high: u64,
    ghost some: { 1 ≤ width },
    ghost few: { width ≤ 18 },
}

// 00 to 59, as minutes and seconds are.
pub const SIXTY: Number = Number {
    width: 2,
    low: 0,
    high: 59,
};
