// What the reading calls answer.

// A record: where its header begins, how many bytes of data it has, its tag, and how many fields.
#[derive(Clone, Copy, PartialEq, Eq, Debug)]
pub struct RecordInfo {
    pub place: usize,
    pub length: usize,
    pub tag: [u8; 6],
    pub fields: usize,
}

// A field: where it begins, its name number, and its bytes, which are a part of the caller's buffer.
#[derive(Clone, Copy)]
pub struct FieldInfo<'b> {
    pub place: usize,
    pub name: u16,
    pub bytes: &'b [u8],
}

// One field in a list of all: its record, field and name number, where it begins, and its width.
#[derive(Clone, Copy, PartialEq, Eq, Debug, Default)]
pub struct Entry {
    pub record: usize,
    pub field: usize,
    pub name: u16,
    pub place: usize,
    pub width: usize,
}
