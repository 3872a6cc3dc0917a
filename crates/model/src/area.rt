// An area in a buffer: where its last finished record ends, and how many bytes of data an open draft has behind its header.
#[derive(Clone, Copy, PartialEq, Eq, Debug)]
pub struct Area {
    pub end: usize,
    pub draft: Option<usize>,
}
