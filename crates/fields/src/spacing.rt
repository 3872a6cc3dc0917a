use kinds::point::Decimal;

// How far apart pixels are, in one of two notations.
#[derive(Clone, Copy, PartialEq, Eq, Debug)]
pub enum PixelSpacing {
    Fine(Decimal),
    Coarse(Decimal),
    // the word 0000000
    Unknown,
}

// Two digits, a point and four digits in range, or else four digits, a point and two digits in range, or else the word 0000000.
#[derive(Clone, Copy)]
pub struct PixelSpacings {
    pub low: u64,
    pub high: u64,
}
