// A field that a record has next: its name number and its width.
#[derive(Clone, Copy, PartialEq, Eq, Debug)]
pub struct Field {
    pub name: u16,
    pub width: u16,
}
