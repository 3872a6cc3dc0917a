use kinds::point::Decimal;

// A focal length, or that there is none.
// No Option: a blank field is absent, and 999.99 is a word of its own that is spelled.
#[derive(Clone, Copy, PartialEq, Eq, Debug)]
pub enum FocalLength {
    Known(Decimal),
    // the word 999.99
    Unavailable,
}

// Three digits, a point and two digits in range, or else the word 999.99.
#[derive(Clone, Copy)]
pub struct FocalLengths {
    pub low: u64,
    pub high: u64,
}
