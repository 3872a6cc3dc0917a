use super::cell::Cell;

// The kind of a row, under Blank where the row says so.
#[derive(Clone, Copy)]
pub struct Slot {
    pub cell: Cell,
}
