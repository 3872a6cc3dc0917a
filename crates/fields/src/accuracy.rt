use kinds::point::Decimal;

// How far off a place may be. That it is not known has two spellings, which are two values.
#[derive(Clone, Copy, PartialEq, Eq, Debug)]
pub enum Accuracy {
    Known(Decimal),
    // the word 000.00
    ZeroPoint,
    // the word 000000
    Zeros,
}

// Three digits, a point and two digits in range, or else the word 000.00, or else the word 000000. Its range is its own, as
// those of FocalLengths, PixelSpacings and Turns are: each is another kind.
#[derive(Clone, Copy)]
pub struct Accuracies {
    pub low: u64,
    pub high: u64,
}
