use super::code::Code;

// A field's row in a table: how wide the field is, which kind reads it, in which range, and whether all spaces stand for none.
#[derive(Clone, Copy)]
pub struct Row {
    pub width: u16,
    pub kind: Code,
    pub low: u64,
    pub high: u64,
    pub blank: bool,
}
