use kinds::capital::Letters;

// The segment that ends an operation, or that it is not known.
// No Option: a blank field is absent, and 00 is a word of its own that is spelled.
#[derive(Clone, Copy, PartialEq, Eq, Debug)]
pub enum EndSegment<'a> {
    Known(Letters<'a>),
    // the word 00
    Unknown,
}

// Two capitals, or else the word 00.
#[derive(Clone, Copy)]
pub struct EndSegments;
